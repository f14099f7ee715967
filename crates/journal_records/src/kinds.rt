//! The byte by which a record tells which change it is.

pub(crate) const CREATE: u8 = 0;

pub(crate) const APPEND: u8 = 1;

pub(crate) const CONCAT: u8 = 2;

pub(crate) const TERMINATE: u8 = 3;

pub(crate) const SWEEP: u8 = 4;

pub(crate) const UPLOAD: u8 = 5;

pub(crate) const NEXT: u8 = 6;

pub(crate) const TOTALS: u8 = 7;
