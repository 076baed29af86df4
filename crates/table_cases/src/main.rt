//! Makes calls on small tables, those above all that no run of the monitor makes, and prints the rows that each gives.
#![tactic(auto)]

mod formulas;
mod indexes;
mod operations;
mod tables;

use std::io::{self, Write};

fn main(rt: HostRuntime) -> io::Result<()> {
    let mut told = Vec::new(rt.alloc());
    operations::put_cases(rt.alloc(), &mut told)?;
    indexes::put_cases(rt.alloc(), &mut told)?;
    formulas::put_cases(rt.alloc(), &mut told)?;
    rt.stdout().write_all(told.as_slice())
}
