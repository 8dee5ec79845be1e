// The unit's functions over the buffers of the C interface: a machine is a state of 53 words, places 0 to 52 in order.
#![tactic(auto)]

pub mod data_operation;
pub mod grant;
pub mod load_store;
pub mod operation;
pub mod place_origin;
pub mod plain_run;
pub mod recorded;
pub mod register_sheet;
pub mod result;
pub mod state;
pub mod transfer;
pub mod watched_run;
