//! The list in a reply: entries of one kind, one after the other.
ghost use Rattle.std.specs.Prelude.{◌≡◌, ◌+◌, ◌≤◌, ℕ, List, ◌∷◌, ◌++◌, length, drop, flat_map, slice_index, All, IsOk};
ghost use Rattle.std.specs.Prelude.{OnOk, OnErr, IfOk, IfErr, IfSome, IfNone};
ghost use Rattle.snap_history.specs.declared.limits.TheConstants.{MAX_COUNT};
ghost use Rattle.snap_frame.specs.Messages.{max_payload, frame, longest_entry, Separate, AreEntries};

use crate::frame::start_frame;
use bytes::{Bytes, BytesMut};
use snap_disk::Refusal;
use snap_history::MAX_COUNT;
use std::alloc::{AllocError, Global};

/// The bytes of a list's payload before its entries: the kind and the count.
pub(crate) const LIST_HEAD_LEN: usize = 2;

/// An entry of a list.
pub(crate) trait ListEntry {
    /// Its bytes in the frame.
    ghost bytes: { Self → List ℕ };

    /// Whether a reply may have this entry.
    ghost may_stand: { Self → Type 0 };

    /// Takes the first entry off, or returns `None` if the bytes don't begin with one.
    fn take_first(rest: &mut Bytes) -> Result<Option<Self>, AllocError>
        ensures some { IfOk result (λ o. IfSome o (λ e. Self.may_stand e × (rest.old ≡ Self.bytes e ++ rest.new))) }
        ensures none { IfOk result (λ o. IfNone o ((e : Self) → (tail : List ℕ)
            → Self.may_stand e → rest.old ≡ Self.bytes e ++ tail → ⊥)) };

    /// How many bytes it has.
    fn len(&self) -> usize
        requires { Self.may_stand self.now }
        ensures len { result ≡ length (Self.bytes self.now) }
        ensures fits { result ≤ longest_entry };

    /// Writes it. The buffer has room for it.
    fn put(&self, out: &mut BytesMut)
        requires may { Self.may_stand self.now }
        requires room { length (Self.bytes self.now) ≤ out.old.spare }
        ensures items { out.new.items ≡ out.old.items ++ Self.bytes self.now }
        ensures room { out.new.spare + length (Self.bytes self.now) ≡ out.old.spare };
}

/// The count of entries in a payload, or `None` if it is missing or out of bounds.
fn entry_count(payload: &[u8]) -> Option<u8>
    ensures some { IfSome result (λ n. (1 ≤ n) × (n ≤ MAX_COUNT)
        × (payload.now ≡ slice_index payload.now 0 ∷ n ∷ drop 2 payload.now)) }
    ensures none { IfNone result ((kind n : ℕ) → (tail : List ℕ) → 1 ≤ n → n ≤ MAX_COUNT
        → payload.now ≡ kind ∷ n ∷ tail → ⊥) }
{
    if payload.len() < LIST_HEAD_LEN {
        return None;
    }
    let count = payload[1];
    if count == 0 || count > MAX_COUNT {
        return None;
    }
    Some(count)
}

/// Reads `count` entries, or returns `None` if the bytes aren't exactly that many entries.
fn read_entries<E: ListEntry + Drop>(
    alloc: Global,
    count: u8,
    mut rest: Bytes,
) -> Result<Option<Vec<E>>, AllocError>
    requires apart { Separate E.bytes E.may_stand }
    ensures some { IfOk result (λ o. IfSome o (λ es. (length es.items ≡ count)
        × All E.may_stand es.items × (rest ≡ flat_map E.bytes es.items))) }
    ensures none { IfOk result (λ o. IfNone o ((es : List E) → length es ≡ count
        → All E.may_stand es → rest ≡ flat_map E.bytes es → ⊥)) }
{
    let mut entries = Vec::new(alloc);
    for _ in 0..count {
        match E::take_first(&mut rest)? {
            Some(entry) => entries.push(entry)?,
            None => return Ok(None),
        }
    }
    if !rest.is_empty() {
        return Ok(None);
    }
    Ok(Some(entries))
}

/// Reads the entries of a list's payload, or returns `None` if it isn't a list of them.
pub(crate) fn read_list<E: ListEntry + Drop>(
    mut payload: BytesMut,
) -> Result<Option<Vec<E>>, AllocError>
    requires apart { Separate E.bytes E.may_stand }
    ensures some { IfOk result (λ o. IfSome o (λ es. AreEntries E.may_stand es.items × (payload.items
        ≡ slice_index payload.items 0 ∷ length es.items ∷ flat_map E.bytes es.items))) }
    ensures none { IfOk result (λ o. IfNone o ((kind : ℕ) → (es : List E)
        → AreEntries E.may_stand es → payload.items ≡ kind ∷ length es ∷ flat_map E.bytes es → ⊥)) }
{
    let alloc = *payload.allocator();
    let Some(count) = entry_count(payload.as_slice()) else {
        return Ok(None);
    };
    payload.advance(LIST_HEAD_LEN);
    let entries = payload.freeze().map_err(|_| AllocError)?;
    read_entries(alloc, count, entries)
}

/// How many bytes all entries have together.
pub(crate) fn entries_len<E: ListEntry>(entries: &[E]) -> usize
    requires few { length entries.now ≤ MAX_COUNT }
    requires each { All E.may_stand entries.now }
    ensures len { result ≡ length (flat_map E.bytes entries.now) }
    ensures fits { 2 + result ≤ max_payload }
{
    let mut len = 0;
    for entry in entries {
        len += entry.len();
    }
    len
}

/// Appends the frame of a list of this kind, as [`write_reply`](crate::write_reply) appends one.
pub(crate) fn append_list<E: ListEntry>(
    kind: u8,
    entries: &[E],
    out: &mut BytesMut,
) -> Result<(), Refusal>
    requires few { length entries.now ≤ MAX_COUNT }
    requires each { All E.may_stand entries.now }
    ensures ok { OnOk result (out.new.items ≡ out.old.items
        ++ frame (kind ∷ length entries.now ∷ flat_map E.bytes entries.now)) }
    ensures err { OnErr result (out.new.items ≡ out.old.items) }
    ensures room { length (frame (kind ∷ length entries.now ∷ flat_map E.bytes entries.now))
        ≤ out.old.spare → IsOk result }
    ensures memory { IfErr result (λ why. why ≡ Refusal.NoMemory) }
{
    start_frame(LIST_HEAD_LEN + entries_len(entries), out)?;
    out.extend_reserved(&[kind, entries.len() as u8]);
    for entry in entries {
        entry.put(out);
    }
    Ok(())
}
