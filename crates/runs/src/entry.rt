ghost use Rattle.std.specs.Prelude.{◌≡◌, ◌*◌, length, nat_le};
ghost use Rattle.ledger.specs.Ledger.{Call as LedgerCall};
ghost use Rattle.ledger.specs.Questions.{Question as LedgerQuestion, questions_by};
ghost use Rattle.runs.specs.Entries.{Entries, Takes, EntriesPlayed, EntriesOpened, bytes_of, words_of, all_bytes, all_words};

use inventory::Shelf;
use refusals::Refusal;
use rows::RowKind;
use signatures::Signature;

/// What stands in a list that is played. It is one call, and its answer tells what that call is answered, together with what
/// it writes into the bytes and words that are lent to it.
pub trait Entry<R: RowKind, P: Signature<R>> {
    type Answer;

    ghost kind: { Entries Self Self.Answer (LedgerCall R (LedgerQuestion R P)) };

    /// How many bytes it is lent.
    fn bytes(&self) -> usize
        ensures { result ≡ bytes_of kind self.now };

    /// How many words it is lent.
    fn words(&self) -> usize
        ensures { result ≡ words_of kind self.now };

    /// Does what its call asks, with memory of its own: so many bytes and so many words.
    fn play(
        &self,
        shelf: &mut Shelf,
        memory: &mut [R],
        bytes: &mut [u8],
        words: &mut [u64],
    ) -> Self::Answer
        requires memory { length memory.old ≡ shelf.old.count * 1024 }
        requires bytes { length bytes.old ≡ bytes_of kind self.now }
        requires words { length words.old ≡ words_of kind self.now }
        ensures { Takes (questions_by R.RowKind.same P.Signature.count P.Signature.value) kind self.now shelf.old memory.old bytes.old words.old result shelf.new memory.new bytes.new words.new };
}

/// Whether so many bytes are enough for all entries.
pub fn have_bytes<R: RowKind, P: Signature<R>, E: Entry<R, P>>(entries: &[E], bytes: usize) -> bool
    ensures { result ≡ nat_le (all_bytes E.kind entries.now) bytes }
{
    let mut left = bytes;
    for entry in entries {
        let room = entry.bytes();
        if room > left {
            return false;
        }
        left -= room;
    }
    true
}

/// Whether so many words are enough for all entries.
pub fn have_words<R: RowKind, P: Signature<R>, E: Entry<R, P>>(entries: &[E], words: usize) -> bool
    ensures { result ≡ nat_le (all_words E.kind entries.now) words }
{
    let mut left = words;
    for entry in entries {
        let room = entry.words();
        if room > left {
            return false;
        }
        left -= room;
    }
    true
}

/// Plays a list of entries. The bytes that are lent to them lie one after the other, and so do the words; the answers are
/// written in order into the front of the room for them.
pub fn play_entries<R: RowKind, P: Signature<R>, E: Entry<R, P>>(
    shelf: &mut Shelf,
    memory: &mut [R],
    entries: &[E],
    bytes: &mut [u8],
    words: &mut [u64],
    answers: &mut [E::Answer],
) -> Result<(), Refusal>
where
    E::Answer: Drop,
    ensures { EntriesPlayed (questions_by R.RowKind.same P.Signature.count P.Signature.value) E.kind entries.now memory.old bytes.old words.old answers.old shelf.old result shelf.new memory.new bytes.new words.new answers.new }
{
    shelf.check_memory(memory)?;
    if answers.len() < entries.len()
        || !have_bytes(entries, bytes.len())
        || !have_words(entries, words.len())
    {
        return Err(Refusal::MemoryTooShort);
    }
    let mut bytes_start = 0;
    let mut words_start = 0;
    for (k, entry) in entries.iter().enumerate() {
        let bytes_end = bytes_start + entry.bytes();
        let words_end = words_start + entry.words();
        answers[k] = entry.play(
            shelf,
            memory,
            &mut bytes[bytes_start..bytes_end],
            &mut words[words_start..words_end],
        );
        bytes_start = bytes_end;
        words_start = words_end;
    }
    Ok(())
}

/// Opens a shelf and plays a list of entries on it.
pub fn open_and_play_entries<R: RowKind, P: Signature<R>, E: Entry<R, P>>(
    slots: usize,
    memory: &mut [R],
    entries: &[E],
    bytes: &mut [u8],
    words: &mut [u64],
    answers: &mut [E::Answer],
) -> Result<Shelf, Refusal>
where
    E::Answer: Drop,
    ensures { EntriesOpened (questions_by R.RowKind.same P.Signature.count P.Signature.value) E.kind entries.now memory.old bytes.old words.old answers.old slots result memory.new bytes.new words.new answers.new }
{
    let mut shelf = Shelf::open(slots)?;
    play_entries(&mut shelf, memory, entries, bytes, words, answers)?;
    Ok(shelf)
}
