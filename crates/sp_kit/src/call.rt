ghost use Rattle.std.specs.Prelude.{◌≡◌, [], ◌∷◌, Some, IfOk};
ghost use Rattle.sp_kit.specs.Files.{Asks, fetch, store};
ghost use Rattle.sp_kit.specs.Memory.{call_of, calls_of};

use std::alloc::{AllocError, Global};

/// A call of a shelf, with the name that it was for.
#[derive(Drop)]
pub enum Call {
    Fetch(String),
    Store(String),
}

/// A fetch of this name.
fn fetch_call(alloc: Global, name: &str) -> Result<Call, AllocError>
    ensures { IfOk result (λ call. call_of call ≡ fetch name.now) }
{
    Ok(Call::Fetch(String::from_str(alloc, name)?))
}

/// A store under this name.
fn store_call(alloc: Global, name: &str) -> Result<Call, AllocError>
    ensures { IfOk result (λ call. call_of call ≡ store name.now) }
{
    Ok(Call::Store(String::from_str(alloc, name)?))
}

/// Calls with one more behind them.
fn with_call(calls: Vec<Call>, call: Call) -> Option<Vec<Call>>
    ensures { Asks (calls_of (Some calls)) (calls_of result) (call_of call ∷ []) }
{
    let mut calls = calls;
    match calls.push(call) {
        Ok(()) => Some(calls),
        Err(_) => None,
    }
}

/// These calls and a fetch of this name behind them; none from here on where there is no memory for it.
pub fn with_fetch(alloc: Global, calls: Option<Vec<Call>>, name: &str) -> Option<Vec<Call>>
    ensures { Asks (calls_of calls) (calls_of result) (fetch name.now ∷ []) }
{
    match (calls, fetch_call(alloc, name)) {
        (Some(calls), Ok(call)) => with_call(calls, call),
        _ => None,
    }
}

/// These calls and a store under this name behind them; none from here on where there is no memory for it.
pub fn with_store(alloc: Global, calls: Option<Vec<Call>>, name: &str) -> Option<Vec<Call>>
    ensures { Asks (calls_of calls) (calls_of result) (store name.now ∷ []) }
{
    match (calls, store_call(alloc, name)) {
        (Some(calls), Ok(call)) => with_call(calls, call),
        _ => None,
    }
}
