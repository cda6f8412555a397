//! Values as they are written, with their templates, which are parsed once.
//!
//! For the layers above: contracts see a `Prepared` as its value, a `PreparedText` as its text, and a `PreparedDict` as its dict. Whoever renders one finds its template in it, or those of its
//! values, where they were parsed, and parses nothing. That a template is the value's own is kept in the type (`specs/Parts.antt`), and so is that names and values are those of the dict (`specs/Row.antt`).
#![tactic(auto)]

pub mod dict;
pub mod prepared;
