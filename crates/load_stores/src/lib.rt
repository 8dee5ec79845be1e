// Loads and stores (vfp.rs `coprocessor_load_store`, LDC and STC on coprocessors 10 and 11), over lent registers and a lent window.
#![tactic(auto)]

pub mod access;
