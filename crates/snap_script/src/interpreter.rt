//! Runs the lines of a script, one by one.
ghost use Rattle.std.specs.Prelude.{◌≡◌, ℕ, List, [], ◌∷◌, ◌++◌, IfOk, IfErr, OnOk, Some, None};
ghost use Rattle.snap_script.specs.Interpreter.{Played, HaltsAt};
ghost use Rattle.snap_script.specs.declared.interpreter.InterpreterFault.TheVariants.{NoMemory};

use crate::fault::LineFault;
use crate::line::{event_line, world_line};
use crate::print::{print_reply, print_world};
use snap_world::World;
use std::alloc::{AllocError, Global};

/// Why a line wasn't done.
#[derive(Drop)]
pub(crate) enum InterpreterFault {
    /// It can't be read.
    Fault(LineFault),
    /// Memory ran out.
    NoMemory,
}

impl From<AllocError> for InterpreterFault {
    ghost from_gives = { λ _ halt. halt ≡ NoMemory };

    fn from(_: AllocError) -> InterpreterFault {
        InterpreterFault::NoMemory
    }
}

/// The world, once the first line has made it, and the text of the line that was done last.
#[derive(Drop)]
pub(crate) struct Interpreter {
    pub(crate) alloc: Global,
    pub(crate) world: Option<World>,
    pub(crate) text: Vec<u8>,
}

impl Interpreter {
    /// An interpreter that has done no line.
    pub(crate) fn new(alloc: Global) -> Interpreter
        ensures { result.world ≡ None }
    {
        Interpreter {
            alloc,
            world: None,
            text: Vec::new(alloc),
        }
    }

    /// Runs a line that isn't empty.
    pub(crate) fn line(&mut self, line: &[u8]) -> Result<(), InterpreterFault>
        ensures ok { OnOk result ((lines : List (List ℕ)) (text : List ℕ) → Played lines text self.old.world
            → Played (lines ++ line.now ∷ []) (text ++ self.new.text.items) self.new.world) }
        ensures err { IfErr result (λ halt. HaltsAt self.old.world line.now halt) }
    {
        self.text.clear();
        match &mut self.world {
            Some(world) => play_event(self.alloc, world, line, &mut self.text),
            None => {
                self.world = Some(play_world(self.alloc, line, &mut self.text)?);
                Ok(())
            }
        }
    }
}

/// Makes the world of a first line, and its text.
fn play_world(alloc: Global, line: &[u8], out: &mut Vec<u8>) -> Result<World, InterpreterFault>
    requires { out.old.items ≡ [] }
    ensures ok { IfOk result (λ w. Played (line.now ∷ []) out.new.items (Some w)) }
    ensures err { IfErr result (λ halt. HaltsAt None line.now halt) }
{
    let Some((segments, scanners)) = world_line(line) else {
        return Err(InterpreterFault::Fault(LineFault::NoWorld));
    };
    let world = World::new(alloc, segments, scanners)?;
    print_world(out, segments, scanners)?;
    Ok(world)
}

/// Runs the event of a line, and makes the text of its reply.
fn play_event(
    alloc: Global,
    world: &mut World,
    line: &[u8],
    out: &mut Vec<u8>,
) -> Result<(), InterpreterFault>
    requires { out.old.items ≡ [] }
    ensures ok { OnOk result ((lines : List (List ℕ)) (text : List ℕ) → Played lines text (Some world.old)
        → Played (lines ++ line.now ∷ []) (text ++ out.new.items) (Some world.new)) }
    ensures err { IfErr result (λ halt. HaltsAt (Some world.old) line.now halt) }
{
    let Some(event) = event_line(alloc, line)? else {
        return Err(InterpreterFault::Fault(LineFault::of(line)));
    };
    let reply = world.step(&event)?;
    print_reply(out, &reply)?;
    Ok(())
}
