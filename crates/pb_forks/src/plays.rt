// What each step tells its caller.
ghost use Rattle.pb_forks.specs.Steps.{MainLook, MainGrab, MainLay, MainOffer, MainCollect, MainShut, ForkLook, ForkTake, ForkGrab, ForkLay, ForkAnswer};

use crate::parcel::Parcel;
use crate::views::View;
use atomic_table::{Join, Play, Split};
use pb_outcome::job::Allows;
use std::marker::PhantomData;

pub(crate) struct MainLooks;

impl Play<Option<Parcel>, View> for MainLooks {
    ghost then = { MainLook };
}

pub(crate) struct MainGrabs;

impl Play<Option<Parcel>, View> for MainGrabs {
    ghost then = { MainGrab };
}

pub(crate) struct MainLays;

impl Play<Option<Parcel>, View> for MainLays {
    ghost then = { MainLay };
}

pub(crate) struct MainOffers;

impl Play<Option<Parcel>, View> for MainOffers {
    ghost then = { MainOffer };
}

pub(crate) struct MainCollects<A> {
    runner: PhantomData<A>,
}

impl<A: Allows> Play<Option<Parcel>, View> for MainCollects<A> {
    ghost then = { MainCollect A.allows };
}

pub(crate) struct MainShuts;

impl Play<Option<Parcel>, View> for MainShuts {
    ghost then = { MainShut };
}

pub(crate) struct ForkLooks;

impl Play<Option<Parcel>, View> for ForkLooks {
    ghost then = { ForkLook };
}

pub(crate) struct ForkTakes;

impl Play<Option<Parcel>, View> for ForkTakes {
    ghost then = { ForkTake };
}

pub(crate) struct ForkGrabs;

impl Play<Option<Parcel>, View> for ForkGrabs {
    ghost then = { ForkGrab };
}

pub(crate) struct ForkLays;

impl Play<Option<Parcel>, View> for ForkLays {
    ghost then = { ForkLay };
}

pub(crate) struct ForkAnswers;

impl Play<Option<Parcel>, View> for ForkAnswers {
    ghost then = { ForkAnswer };
}

pub(crate) struct Deals;

impl Split<View> for Deals {
    ghost use Rattle.pb_forks.specs.Views.{dealt, next_fork};

    ghost left = { dealt };

    ghost right = { next_fork };
}

pub(crate) struct Joins;

impl Join<View> for Joins {
    ghost use Rattle.pb_forks.specs.Views.{joined};
    ghost use Rattle.pb_forks.specs.declared.views.View.TheVariants.{Spent};

    ghost both = { joined };

    ghost spent = { Spent };
}
