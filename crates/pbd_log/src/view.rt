// A log as a view of its bytes, or where they stop being one.
ghost use Rattle.std.specs.Prelude.{◌≡◌, ◌≤◌, ◌<◌, ◌^◌, ◌++◌, ◌∷◌, [], List, length, IfOk, IfErr, IfSome, IfNone, OnErr, MatchResult, Result};
ghost use Rattle.std.specs.List.{flat_map, AllByRecursion};
ghost use Rattle.pbd_log.specs.declared.entry.Entry.{Entry};
ghost use Rattle.pbd_log.specs.Entries.{entry_bytes, IsEntry};
ghost use Rattle.pbd_log.specs.Logs.{Spells, SpellsNothing, end_bytes, BeginsNoEntry, FailsToEnd, IsFault};
ghost use Rattle.pbd_log.specs.Reading.{Gives, GivesOr, version_at, limit_at, scene_at, head_at};

use crate::reading::{after_end, next_entry, u32_of, u64_of};
use crate::{Entry, LogFault};
use std::marker::Model;

const OLD_LIMIT: u64 = 268_435_456;

const LIMIT: u64 = 536_870_912;

/// What stands before the entries, and the bytes from the entries on.
#[derive(Clone, Copy)]
pub struct Head<'a> {
    version: u8,
    limit: i64,
    scene: &'a [u8],
    body: &'a [u8],
}

#[tactic(auto, unfolding(crate::specs::Reading::version_at))]
fn version_of(bytes: &[u8]) -> Option<(u8, &[u8])>
    ensures { Gives (λ x. (x.0, x.1.now)) result (version_at bytes.now) }
{
    if bytes.len() < 8 {
        return None;
    }
    let version = bytes[7];
    if &bytes[..7] == b"PBDSLOG".as_slice() && (version == 1 || version == 2) {
        return Some((version, &bytes[8..]));
    }
    None
}

#[tactic(auto, unfolding(crate::specs::Reading::limit_at))]
fn limit_of(version: u8, bytes: &[u8]) -> Option<(i64, &[u8])>
    ensures { Gives (λ x. (x.0, x.1.now)) result (limit_at version bytes.now) }
{
    if version == 1 {
        return Some((OLD_LIMIT as i64, bytes));
    }
    let (limit, rest) = u64_of(bytes)?;
    if limit == OLD_LIMIT || limit == LIMIT {
        return Some((limit as i64, rest));
    }
    None
}

#[tactic(auto, unfolding(crate::specs::Reading::scene_at))]
fn scene_of(bytes: &[u8]) -> Option<(&[u8], &[u8])>
    ensures { Gives (λ x. (x.0.now, x.1.now)) result (scene_at bytes.now) }
{
    let (len, rest) = u32_of(bytes)?;
    let len = len as usize;
    if rest.len() < len {
        return None;
    }
    Some(rest.split_at(len))
}

#[tactic(auto, unfolding(crate::specs::Reading::head_at))]
fn head_of(bytes: &[u8]) -> Result<Head<'_>, LogFault>
    ensures { GivesOr (λ h. record { version = h.version; limit = h.limit; scene = h.scene.now; body = h.body.now })
        (λ f. f.offset) result (head_at bytes.now) }
{
    let Some((version, rest)) = version_of(bytes) else {
        return Err(LogFault { offset: 0 });
    };
    let Some((limit, rest)) = limit_of(version, rest) else {
        return Err(LogFault { offset: 8 });
    };
    let offset = if version == 1 { 8 } else { 16 };
    let Some((scene, body)) = scene_of(rest) else {
        return Err(LogFault { offset });
    };
    Ok(Head {
        version,
        limit,
        scene,
        body,
    })
}

/// How many entries stand at the front, and what follows them.
fn skip_entries(body: &[u8]) -> (u64, &[u8])
    ensures parts { (entries : List Entry) × AllByRecursion IsEntry entries
        × (body.now ≡ flat_map entry_bytes entries ++ result.1.now) × (length entries ≡ result.0) }
    ensures none { BeginsNoEntry result.1.now }
    ensures fits { result.0 < 2 ^ 64 }
{
    let mut count: u64 = 0;
    let mut rest = body;
    'entries: loop {
        match next_entry(rest) {
            None => return (count, rest),
            Some((_, after)) => {
                count += 1;
                rest = after;
            }
        }
    }
}

/// That the end of the log stands here, behind so many entries, and nothing after it.
fn check_end(total: usize, count: u64, rest: &[u8]) -> Result<(), LogFault>
    requires { length rest.now ≤ total }
    ensures { MatchResult result (λ _. rest.now ≡ end_bytes count) (λ f. FailsToEnd total count rest.now f.offset) }
{
    match after_end(count, rest) {
        None => Err(LogFault {
            offset: (total - rest.len()) as u64,
        }),
        Some([]) => Ok(()),
        Some(more) => Err(LogFault {
            offset: (total - more.len()) as u64,
        }),
    }
}

/// A log that was read: its version, limit and scene, and the entries still to come.
#[derive(Drop)]
pub struct LogView<'a> {
    version: u8,
    limit: i64,
    scene: &'a [u8],
    rest: &'a [u8],
}

impl<'a> Model for LogView<'a> {
    ghost use Rattle.pbd_log.specs.Logs.{Log};
    ghost use Rattle.pbd_log.specs.Reading.{entries_of};

    ghost Value = { Log };

    ghost view = { λ v. record { version = v.version; limit = v.limit; scene = v.scene.now; entries = entries_of v.rest.now } };
}

/// The log that the bytes spell, of version 1 or 2. A fault comes exactly where they spell none: bytes that are cut short, that
/// have a wrong field, or that go on after the end.
pub fn read_log(bytes: &[u8]) -> Result<LogView<'_>, LogFault>
    ensures found { IfOk result (λ log. Spells bytes.now log.version log.limit log.scene log.entries) }
    ensures nothing { OnErr result (SpellsNothing bytes.now) }
    ensures place { IfErr result (λ fault. IsFault bytes.now fault.offset) }
{
    let head = head_of(bytes)?;
    let (count, rest) = skip_entries(head.body);
    check_end(bytes.len(), count, rest)?;
    Ok(LogView {
        version: head.version,
        limit: head.limit,
        scene: head.scene,
        rest: head.body,
    })
}

impl<'a> LogView<'a> {
    /// 1 or 2.
    pub fn version(&self) -> u8
        ensures { result ≡ self.now.version }
    {
        self.version
    }

    /// The limit of the world's places: 268,435,456 in version 1, else the header's.
    pub fn limit(&self) -> i64
        ensures { result ≡ self.now.limit }
    {
        self.limit
    }

    /// The text of the scene on which the session began.
    pub fn scene(&self) -> &[u8]
        ensures { result.now ≡ self.now.scene }
    {
        self.scene
    }

    /// The next entry. None comes exactly after the last one.
    pub fn next(&mut self) -> Option<Entry>
        ensures next { IfSome result (λ entry. self.old ≡ record self.new { entries = entry ∷ self.new.entries }) }
        ensures ended { IfNone result (self.old.entries ≡ []) }
        ensures same { IfNone result (self.new ≡ self.old) }
        // No more entries are still to come than bytes, so they can be counted.
        ensures few { length self.old.entries < 2 ^ 63 }
    {
        match next_entry(self.rest) {
            Some((entry, rest)) => {
                self.rest = rest;
                Some(entry)
            }
            None => None,
        }
    }
}
