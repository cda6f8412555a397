//! Each call of a set, at widths around those of a word and of eight words and at the largest ones, against a plain list of Bools.

use pb_ids::HostNo;
use pb_planes::HostSet;
use std::alloc::Global;
use std::test::Fail;

const WIDTHS: [u32; 10] = [0, 1, 63, 64, 65, 511, 512, 513, 65_536, 1_048_576];

/// Which hosts a set is made to hold.
#[derive(Clone, Copy, Debug)]
enum Members {
    None,
    All,
    Even,
    Thirds,
    Either,
    Both,
    Without,
}

const ALL_MEMBERS: [Members; 7] = [
    Members::None,
    Members::All,
    Members::Even,
    Members::Thirds,
    Members::Either,
    Members::Both,
    Members::Without,
];

fn is_member(members: Members, number: u32) -> bool {
    let even = number % 2 == 0;
    let third = number % 3 == 0;
    match members {
        Members::None => false,
        Members::All => true,
        Members::Even => even,
        Members::Thirds => third,
        Members::Either => even || third,
        Members::Both => even && third,
        Members::Without => even && !third,
    }
}

/// Whether each number below the width is to be in the set.
fn list_of(alloc: Global, members: Members, width: u32) -> Result<Vec<bool>, Fail> {
    let mut list = Vec::new(alloc);
    for number in 0..width {
        list.push(is_member(members, number))?;
    }
    Ok(list)
}

/// The even numbers, inserted one by one.
fn even(alloc: Global, width: u32) -> Result<HostSet, Fail> {
    let mut set = HostSet::empty(alloc, width)?;
    for number in 0..width {
        if number < set.width() && is_member(Members::Even, number) {
            set.insert(HostNo(number));
        }
    }
    Ok(set)
}

/// The numbers that 3 divides, each number put in or out, of a set that had all.
fn thirds(alloc: Global, width: u32) -> Result<HostSet, Fail> {
    let mut set = HostSet::full(alloc, width)?;
    for number in 0..width {
        if number < set.width() {
            set.put(HostNo(number), is_member(Members::Thirds, number));
        }
    }
    Ok(set)
}

fn set_of(alloc: Global, members: Members, width: u32) -> Result<HostSet, Fail> {
    let mut set = even(alloc, width)?;
    let other = thirds(alloc, width)?;
    if set.width() != other.width() {
        return Err("sets of one width")?;
    }
    match members {
        Members::None => set = HostSet::empty(alloc, width)?,
        Members::All => set = HostSet::full(alloc, width)?,
        Members::Even => {}
        Members::Thirds => set = other,
        Members::Either => set.or_with(&other),
        Members::Both => set.and_with(&other),
        Members::Without => set.minus_with(&other),
    }
    Ok(set)
}

/// Whether `width`, `has` and `contains` say what the list says.
fn has_the_same(set: &HostSet, list: &[bool]) -> bool {
    for number in 0..set.width() {
        if list.get(number as usize) != Some(&set.has(HostNo(number))) {
            return false;
        }
        if set.contains(HostNo(number)) != set.has(HostNo(number)) {
            return false;
        }
    }
    set.width() as usize == list.len()
        && !set.contains(HostNo(set.width()))
        && !set.contains(HostNo(u32::MAX))
}

/// Whether `next_at` answers from each number what stands next in the list, and nothing from the width on.
fn walks_the_same(set: &HostSet, list: &[bool]) -> bool {
    let mut next = None;
    for number in (0..set.width()).rev() {
        if list.get(number as usize) == Some(&true) {
            next = Some(number);
        }
        if set.next_at(number).map(|host| host.0) != next {
            return false;
        }
    }
    set.next_at(set.width()).is_none() && set.next_at(u32::MAX).is_none()
}

/// Whether `count`, `is_empty` and `nth` say what the list says; `nth` is asked for each member whose position has no bit of the mask.
fn counts_the_same(set: &HostSet, list: &[bool], mask: u32) -> bool {
    let mut before = 0u32;
    for number in 0..set.width() {
        if list.get(number as usize) == Some(&true) {
            if before & mask == 0 && set.nth(before).map(|host| host.0) != Some(number) {
                return false;
            }
            before = before.wrapping_add(1);
        }
    }
    set.count() == before && set.is_empty() == (before == 0) && set.nth(before).is_none()
}

/// Whether nothing is left once each number was removed.
fn empties(mut set: HostSet) -> bool {
    for number in 0..set.width() {
        if number < set.width() {
            set.remove(HostNo(number));
        }
    }
    set.is_empty() && set.count() == 0
}

#[test]
fn every_width(rt: HostRuntime) -> Result<(), Fail> {
    let alloc = rt.alloc();
    for width in WIDTHS {
        let mask = if width > 65_536 { 1_023 } else { 0 };
        for members in ALL_MEMBERS {
            let list = list_of(alloc, members, width)?;
            let set = set_of(alloc, members, width)?;
            let copy = set.try_clone(alloc)?;
            assert!(rt; has_the_same(&set, list.as_slice()), "{width}");
            assert!(rt; walks_the_same(&set, list.as_slice()), "{width}");
            assert!(rt; counts_the_same(&set, list.as_slice(), mask), "{width}");
            assert!(rt; empties(set), "{width}");
            assert!(rt; has_the_same(&copy, list.as_slice()), "{width}");
        }
    }
    Ok(())
}
