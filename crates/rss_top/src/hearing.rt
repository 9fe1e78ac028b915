// What a line of a script gets.
ghost use Rattle.std.specs.Prelude.{◌≡◌, ◌<◌, ◌≤◌, IsSome, OnOk};
ghost use Rattle.rss_stored.specs.Calls.{calls_most};
ghost use Rattle.rss_model.specs.Defining.{DefinesNames, LocksGranule};
ghost use Rattle.rss_model.specs.Plays.{bound};
ghost use Rattle.rss_top.specs.Lines.{IsAsked, Hears};

use crate::Status;
use crate::heard::Heard;
use rss_base::{Call, CallError, Name, Refusal, Reply};
use rss_line::{Line, LineFault, Names, read_line};
use rss_stored::Engine;
use std::alloc::{AllocError, Global};

/// Makes a call. Its answer is a reply or a refusal.
fn ask<E: Engine>(engine: &mut E, call: &Call) -> Result<Result<Reply, Refusal>, Status>
    requires up { (E.view engine.old).is_up }
    requires few { (E.view engine.old).calls < calls_most }
    requires names { DefinesNames call.now }
    requires granule { LocksGranule call.now }
    ensures { IsAsked (E.view engine.old) (E.view engine.new) call.now result }
{
    match engine.call(call) {
        Ok(reply) => Ok(Ok(reply)),
        Err(CallError::Refused(why)) => Ok(Err(why)),
        Err(CallError::Device) => Err(Status::DeviceFault),
        Err(CallError::Damaged(place)) => Err(Status::Damaged(place)),
        Err(CallError::NoMemory) => Err(Status::NoMemory),
        Err(CallError::Down) => unreachable!(),
    }
}

/// Makes room for a variable, if there is one.
fn make_place(names: &mut Names, bind: Option<Name>) -> Result<(), AllocError>
    ensures ok { OnOk result (IsSome bind → 1 ≤ names.new.room) }
    ensures same { names.new.variables ≡ names.old.variables }
{
    if bind.is_some() {
        names.reserve()
    } else {
        Ok(())
    }
}

/// Lets the variable stand for what the answer has, if there is a variable, and such an answer.
fn bind_answer(names: &mut Names, bind: Option<Name>, answer: &Result<Reply, Refusal>)
    requires { IsSome bind → 1 ≤ names.old.room }
    ensures { names.new.variables ≡ bound names.old.variables bind answer.now }
{
    if let Some(variable) = bind
        && let Ok(reply) = answer
    {
        names.bind(variable, reply);
    }
}

/// Reads a line, makes its call, if it is one, and binds its variable, for which there is room before
/// the call: want of memory changes no table.
pub fn hear<E: Engine>(
    engine: &mut E,
    alloc: Global,
    names: &mut Names,
    line: &[u8],
) -> Result<Heard, Status>
    requires up { (E.view engine.old).is_up }
    requires few { (E.view engine.old).calls < calls_most }
    ensures { Hears (E.view engine.old) (E.view engine.new)
        names.old.variables names.new.variables line.now result }
{
    match read_line(alloc, line, names) {
        Ok(Line::Blank) => Ok(Heard::Blank),
        Ok(Line::Call { bind, call }) => {
            let Ok(()) = make_place(names, bind) else {
                return Err(Status::NoMemory);
            };
            let answer = ask(engine, &call)?;
            bind_answer(names, bind, &answer);
            Ok(Heard::Called(call, answer))
        }
        Err(LineFault::Words) => Ok(Heard::NoCall),
        Err(LineFault::NoMemory) => Err(Status::NoMemory),
    }
}
