//! Reads the lines of a script.
ghost use Rattle.std.specs.Prelude.{ℕ, ◌≤◌, [], MatchOption, IfOk};
ghost use Rattle.snap_history.specs.declared.limits.TheConstants.{MAX_COUNT};
ghost use Rattle.snap_script.specs.Words.{Finds, words_of, IsNumber};
ghost use Rattle.snap_script.specs.Line.{IsWorldLine, IsEventLine, IsActor, TakesNumber, HasForm};

use crate::verb::Verb;
use crate::words::{cut, fill, mask, number, one_part, two_parts};
use snap_history::MAX_COUNT;
use snap_order::read_hex;
use snap_world::{Actor, Event};
use std::alloc::{AllocError, Global};

/// The numbers of segments and scanners of a line `world N S`.
pub(crate) fn world_line(line: &[u8]) -> Option<(usize, usize)>
    ensures { MatchOption result ((n s : ℕ) → IsWorldLine line.now n s → ⊥)
        (λ world. IsWorldLine line.now world.0 world.1) }
{
    let (b"world", rest) = cut(line, b' ') else {
        return None;
    };
    let (segments, scanners) = two_parts(rest?, b' ')?;
    Some((small_number(segments)?, small_number(scanners)?))
}

/// A number of segments or of scanners: 1 to [`MAX_COUNT`].
fn small_number(word: &[u8]) -> Option<usize>
    ensures { Finds result (λ n. IsNumber word.now n × (1 ≤ n) × (n ≤ MAX_COUNT)) }
{
    let number = number(word)?;
    if number == 0 || number > MAX_COUNT as u64 {
        return None;
    }
    Some(number as usize)
}

/// The event of this line.
pub(crate) fn event_line(alloc: Global, line: &[u8]) -> Result<Option<Event>, AllocError>
    ensures { IfOk result (λ found. Finds found (IsEventLine line.now)) }
{
    let (word, rest) = cut(line, b' ');
    let Some(verb) = Verb::named(word) else {
        return Ok(None);
    };
    match rest {
        Some(operands) => event_of(alloc, verb, operands),
        None => Ok(bare_event(verb)),
    }
}

/// The event of a verb without further words.
fn bare_event(verb: Verb) -> Option<Event>
    ensures { Finds result (HasForm verb []) }
{
    match verb {
        Verb::Restart => Some(Event::Restart),
        Verb::RestartCall => Some(Event::RestartCall),
        Verb::Serve => Some(Event::Serve),
        _ => None,
    }
}

/// The event of a verb and the words after it.
fn event_of(alloc: Global, verb: Verb, operands: &[u8]) -> Result<Option<Event>, AllocError>
    ensures { IfOk result (λ found. Finds found (HasForm verb (words_of operands.now))) }
{
    match verb {
        Verb::Begin => begin(alloc, operands),
        Verb::Fail => fail(alloc, operands),
        Verb::Crash => crash(alloc, operands),
        Verb::RestartFail => restart_fail(alloc, operands),
        Verb::Look => Ok(look(operands)),
        Verb::Pick => Ok(pick(operands)),
        Verb::Call | Verb::Show | Verb::Acknowledge | Verb::Scan | Verb::Answer => {
            Ok(event_at(verb, operands))
        }
        Verb::Restart | Verb::RestartCall | Verb::Serve => Ok(None),
    }
}

/// `begin W HEX`
fn begin(alloc: Global, operands: &[u8]) -> Result<Option<Event>, AllocError>
    ensures { IfOk result (λ found. Finds found (HasForm Verb.Begin (words_of operands.now))) }
{
    let Some((segment, digits)) = two_parts(operands, b' ') else {
        return Ok(None);
    };
    let Some(segment) = number(segment) else {
        return Ok(None);
    };
    match read_hex(alloc, digits)? {
        Some(value) => Ok(Some(Event::Begin(segment as usize, value))),
        None => Ok(None),
    }
}

/// `fail W FILL`
fn fail(alloc: Global, operands: &[u8]) -> Result<Option<Event>, AllocError>
    ensures { IfOk result (λ found. Finds found (HasForm Verb.Fail (words_of operands.now))) }
{
    let Some((segment, word)) = two_parts(operands, b' ') else {
        return Ok(None);
    };
    let Some(segment) = number(segment) else {
        return Ok(None);
    };
    match fill(alloc, word)? {
        Some(fill) => Ok(Some(Event::Fail(segment as usize, fill))),
        None => Ok(None),
    }
}

/// `refail FILL`
fn restart_fail(alloc: Global, operands: &[u8]) -> Result<Option<Event>, AllocError>
    ensures { IfOk result (λ found. Finds found (HasForm Verb.RestartFail (words_of operands.now))) }
{
    let Some(word) = one_part(operands, b' ') else {
        return Ok(None);
    };
    match fill(alloc, word)? {
        Some(fill) => Ok(Some(Event::RestartFail(fill))),
        None => Ok(None),
    }
}

/// `crash FILL ..`
fn crash(alloc: Global, operands: &[u8]) -> Result<Option<Event>, AllocError>
    ensures { IfOk result (λ found. Finds found (HasForm Verb.Crash (words_of operands.now))) }
{
    let mut fills = Vec::new(alloc);
    let mut rest = Some(operands);
    while let Some(text) = rest {
        let (word, after) = cut(text, b' ');
        match fill(alloc, word)? {
            Some(fill) => fills.push(fill)?,
            None => return Ok(None),
        }
        rest = after;
    }
    Ok(Some(Event::Crash(fills)))
}

/// `look wW` or `look sS`
fn look(operands: &[u8]) -> Option<Event>
    ensures { Finds result (HasForm Verb.Look (words_of operands.now)) }
{
    Some(Event::Look(actor(one_part(operands, b' ')?)?))
}

/// `wW` or `sS`
fn actor(word: &[u8]) -> Option<Actor>
    ensures { Finds result (IsActor word.now) }
{
    let (kind, digits) = word.split_first()?;
    let place = number(digits)?;
    match *kind {
        b'w' => Some(Actor::Writer(place as usize)),
        b's' => Some(Actor::Scanner(place as usize)),
        _ => None,
    }
}

/// `pick S MASK`
fn pick(operands: &[u8]) -> Option<Event>
    ensures { Finds result (HasForm Verb.Pick (words_of operands.now)) }
{
    let (scanner, digits) = two_parts(operands, b' ')?;
    let scanner = number(scanner)? as usize;
    Some(Event::Pick(scanner, mask(digits)?))
}

/// `call W`, `show W`, `ack W`, `scan S` or `answer S`
fn event_at(verb: Verb, operands: &[u8]) -> Option<Event>
    requires { TakesNumber verb }
    ensures { Finds result (HasForm verb (words_of operands.now)) }
{
    let word = one_part(operands, b' ')?;
    let place = number(word)? as usize;
    match verb {
        Verb::Call => Some(Event::Call(place)),
        Verb::Show => Some(Event::Show(place)),
        Verb::Acknowledge => Some(Event::Acknowledge(place)),
        Verb::Scan => Some(Event::Scan(place)),
        Verb::Answer => Some(Event::Answer(place)),
        _ => None,
    }
}
