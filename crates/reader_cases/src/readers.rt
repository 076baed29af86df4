//! Cases of signatures and policies.

use crate::stop::Stop;
use crate::texts::{bytes_of, halves, parted, put_word, shown};
use mfotl_model::{Policy, Sort, Var};
use mfotl_parse::read_policy;
use mfotl_sig::{Pred, Signature, read_signature};
use std::alloc::Global;

/// The answer to a case of this kind.
pub fn answer(alloc: Global, kind: &str, case: &str) -> Result<String, Stop> {
    match kind {
        "predicate" => predicate(alloc, case),
        _ => columns(alloc, case),
    }
}

/// The signature of a text, or the fault that it has.
pub fn signature_of(alloc: Global, text: &str) -> Result<Signature, Stop> {
    let bytes = bytes_of(alloc, text)?;
    match read_signature(alloc, bytes.as_slice()) {
        Ok(signature) => Ok(signature),
        Err(fault) => Err(Stop::Told(fault.to_string(alloc)?)),
    }
}

/// The policy of a text over the signature of another, or the fault that one of them has.
pub fn policy_of(alloc: Global, signature: &str, text: &str) -> Result<Policy, Stop> {
    let signature = signature_of(alloc, signature)?;
    let bytes = bytes_of(alloc, text)?;
    policy_over(alloc, &signature, bytes.as_slice())
}

fn policy_over(alloc: Global, signature: &Signature, bytes: &[u8]) -> Result<Policy, Stop> {
    match read_policy(alloc, bytes, signature) {
        Ok(policy) => Ok(policy),
        Err(fault) => Err(Stop::Told(fault.to_string(alloc)?)),
    }
}

// The predicate of a name.
fn predicate(alloc: Global, case: &str) -> Result<String, Stop> {
    let (name, text) = parted(case);
    let signature = signature_of(alloc, text)?;
    found(alloc, &signature, name)
}

fn found(alloc: Global, signature: &Signature, name: &str) -> Result<String, Stop> {
    let name = bytes_of(alloc, name)?;
    match signature.find(name.as_slice()) {
        Some(predicate) => described(alloc, predicate),
        None => Ok(String::from_str(alloc, "None")?),
    }
}

// A predicate's number and the sorts of its arguments.
fn described(alloc: Global, predicate: &Pred) -> Result<String, Stop> {
    let mut told = predicate.number.to_string(alloc)?;
    for sort in &predicate.sorts {
        put_word(&mut told, sort_word(*sort))?;
    }
    Ok(told)
}

fn sort_word(sort: Sort) -> &'static str {
    match sort {
        Sort::Int => "int",
        Sort::Text => "string",
    }
}

// The free variables with their sorts, and then their numbers in a copy of the formula.
fn columns(alloc: Global, case: &str) -> Result<String, Stop> {
    let (signature, text) = halves(case)?;
    let policy = policy_of(alloc, signature, text)?;
    copied_columns(alloc, &policy)
}

fn copied_columns(alloc: Global, policy: &Policy) -> Result<String, Stop> {
    let copy = policy.copy(alloc)?;
    told_columns(alloc, &copy)
}

fn told_columns(alloc: Global, policy: &Policy) -> Result<String, Stop> {
    let mut told = String::new(alloc);
    for var in policy.vars.as_slice() {
        put_column(alloc, &mut told, var)?;
    }
    put_numbers(alloc, &mut told, policy)?;
    Ok(told)
}

fn put_numbers(alloc: Global, told: &mut String, policy: &Policy) -> Result<(), Stop> {
    let numbers = policy.formula.free_vars(alloc)?;
    put_word(told, format!(in alloc; "{numbers:?}")?.as_str())
}

fn put_column(alloc: Global, told: &mut String, var: &Var) -> Result<(), Stop> {
    put_word(told, shown(alloc, var.name.as_bytes())?.as_str())?;
    told.push(':')?;
    Ok(told.push_str(sort_word(var.sort))?)
}
