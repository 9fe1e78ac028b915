// The first byte of a record, by its kind.
pub(crate) const INSERT: u8 = 1;

pub(crate) const DELETE: u8 = 2;

pub(crate) const UPDATE: u8 = 3;

pub(crate) const CONNECT: u8 = 4;

pub(crate) const DISCONNECT: u8 = 5;

pub(crate) const RESTORE: u8 = 6;

pub(crate) const END: u8 = 7;

pub(crate) const ABORT: u8 = 8;

pub(crate) const CHECKPOINT: u8 = 9;
