//! The widths that are tried: around those of a word and of eight words, and the largest ones.

pub const WIDTHS: [u32; 10] = [0, 1, 63, 64, 65, 511, 512, 513, 65_536, 1_048_576];
