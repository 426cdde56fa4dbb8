//! One module for each kind of call.

pub(crate) mod add;
pub(crate) mod confirm;
pub(crate) mod count_items;
pub(crate) mod entries;
pub(crate) mod grow_table;
pub(crate) mod keys;
pub(crate) mod laid_out;
pub(crate) mod plain;
pub(crate) mod top;
