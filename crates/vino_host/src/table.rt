//! The table of words: what plug-ins read and change of it, with a record for each change.

ghost use Rattle.std.specs.Prelude.{◌≡◌, ◌<◌, ◌≤◌, ◌++◌, ◌∷◌, [], length, take, true, Some, slice_get};
ghost use Rattle.vino_host.specs.Tables.{records_of, serves, serves_word, served, is_refused, record_of};
ghost use Rattle.vino_host.specs.Tables.{undone, released, readings};
ghost use Rattle.vino_host.specs.Tables as spec;

use crate::{BAD_ARGUMENT, BUSY, Log, MOST_RECORDS, NO_RECORDS, Record, Served, Word};

impl Log {
    /// How many records there are.
    fn size(&self) -> usize
        ensures size { result ≡ length (records_of self.now) }
        ensures records { take result self.now.records ≡ records_of self.now }
        ensures most { result ≤ length self.now.records }
    {
        (self.count as usize).min(MOST_RECORDS)
    }

    /// A record comes behind the others, for which there is room.
    fn push(&mut self, entry: Record)
        requires { length (records_of self.old) < 64 }
        ensures { records_of self.new ≡ records_of self.old ++ entry ∷ [] }
    {
        self.records[self.count as usize] = entry;
        self.count += 1;
    }

    /// How many readings of the word at place k the records stand for.
    fn readings(&self, k: u32) -> usize
        ensures { result ≡ readings k (records_of self.now) }
    {
        let mut n = self.size();
        let mut found = 0;
        'records: while n > 0 {
            n -= 1;
            found += readings_in(&self.records[n], k);
        }
        found
    }
}

/// How many readings of the word at place k a record stands for.
fn readings_in(r: &Record, k: u32) -> usize
    ensures exact { result ≡ readings k (r.now ∷ []) }
    ensures few { result ≤ 1 }
{
    if r.place == k && r.id != 1 { 1 } else { 0 }
}

/// The word at a place, if there is one.
fn word_at(table: &[Word], k: u32) -> Option<Word>
    ensures { result ≡ slice_get table.now k }
{
    table.get(k as usize).copied()
}

/// Whether a call may read or change a word.
fn may_serve(log: &Log, number: u32, id: u32, k: u32, w: Word) -> bool
    ensures { result ≡ spec.may_serve number id k (records_of log.now) w }
{
    if w.owner != 0 && w.owner != number {
        return false;
    }
    id != 1 || w.readers == 0 || w.readers as usize <= log.readings(k)
}

/// Whether a call reads a word again.
fn is_held(log: &Log, number: u32, id: u32, k: u32, w: Word) -> bool
    ensures { result ≡ spec.is_held number id k (records_of log.now) w }
{
    id != 1 && (w.owner == number || log.readings(k) > 0)
}

/// Whether there is no room for one more record, or for one more reader.
fn is_full(log: &Log, w: Word) -> bool
    ensures { result ≡ spec.is_full (records_of log.now) w }
{
    log.size() >= MOST_RECORDS || w.readers == u32::MAX
}

/// A word that a call changed to v, or read for the first time.
fn taken(number: u32, id: u32, v: u32, w: Word) -> Word
    requires { w.readers < 4294967295 }
    ensures { result ≡ spec.taken number id v w }
{
    if id == 1 {
        return Word {
            value: v,
            owner: number,
            readers: w.readers,
        };
    }
    Word {
        value: w.value,
        owner: w.owner,
        readers: w.readers + 1,
    }
}

/// The word w at place k is read or changed.
fn serve_word(
    table: &mut [Word],
    log: &mut Log,
    number: u32,
    id: u32,
    k: u32,
    v: u32,
    w: Word,
) -> Served
    requires { slice_get table.old k ≡ Some w }
    ensures exact { serves_word number id k v table.old (records_of log.old) w
        ≡ served result table.new (records_of log.new) }
    ensures table { is_refused result ≡ true → table.new ≡ table.old }
    ensures records { is_refused result ≡ true → records_of log.new ≡ records_of log.old }
{
    if !may_serve(log, number, id, k, w) {
        return Served::Refused(BUSY);
    }
    if is_held(log, number, id, k, w) {
        return Served::Gave(w.value);
    }
    if is_full(log, w) {
        return Served::Refused(NO_RECORDS);
    }
    log.push(Record {
        place: k,
        id,
        value: w.value,
        owner: w.owner,
    });
    table[k as usize] = taken(number, id, v, w);
    Served::Gave(w.value)
}

/// The word at place k is read (id 0), or changed to v (id 1), by the call of this number.
pub(crate) fn serve(
    table: &mut [Word],
    log: &mut Log,
    number: u32,
    id: u32,
    k: u32,
    v: u32,
) -> Served
    ensures exact { serves number id k v table.old (records_of log.old)
        ≡ served result table.new (records_of log.new) }
    ensures table { is_refused result ≡ true → table.new ≡ table.old }
    ensures records { is_refused result ≡ true → records_of log.new ≡ records_of log.old }
{
    match word_at(table, k) {
        None => Served::Refused(BAD_ARGUMENT),
        Some(w) => serve_word(table, log, number, id, k, v, w),
    }
}

/// How many readings of its word a record stands for.
fn reading_of(r: &Record) -> u32
    ensures { result ≡ spec.reading_of r.now }
{
    if r.id == 1 { 0 } else { 1 }
}

/// The word of a record is put back as the record has it, if the table has its place.
fn put_back(table: &mut [Word], r: &Record)
    ensures { table.new ≡ spec.put_back r.now table.old }
{
    if let Some(w) = word_at(table, r.place) {
        table[r.place as usize] = Word {
            value: r.value,
            owner: r.owner,
            readers: w.readers.saturating_sub(reading_of(r)),
        };
    }
}

/// What the records say is put back, the newest first.
pub(crate) fn undo(table: &mut [Word], log: &Log)
    ensures { table.new ≡ undone (records_of log.now) table.old }
{
    let mut n = log.size();
    'records: while n > 0 {
        n -= 1;
        put_back(table, &log.records[n]);
    }
}

/// The word of a record gets its owner from before, if the table has its place.
fn release_at(table: &mut [Word], r: &Record)
    ensures { table.new ≡ spec.released_at r.now table.old }
{
    if let Some(w) = word_at(table, r.place) {
        table[r.place as usize] = Word {
            value: w.value,
            owner: r.owner,
            readers: w.readers.saturating_sub(reading_of(r)),
        };
    }
}

/// The words of the records get their owners from before, the newest record first.
pub(crate) fn release(table: &mut [Word], log: &Log)
    ensures { table.new ≡ released (records_of log.now) table.old }
{
    let mut n = log.size();
    'records: while n > 0 {
        n -= 1;
        release_at(table, &log.records[n]);
    }
}
