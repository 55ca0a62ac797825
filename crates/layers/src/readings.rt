// How recorder codes are read: each as a code below 32, or as nothing.
ghost use Rattle.std.specs.Prelude.{◌≡◌, ℕ, ◌<◌, ◌≤◌, Some, None, OnErr, slice_index_or};

use grammar::refusal::Refusal;

// `count` is how many recorder codes there are, not how many places are filled: each place of the array is read on its own.
#[derive(Clone, Copy)]
pub struct Readings {
    count: u32,
    codes: [Option<u8>; 32],
    ghost some: { 1 ≤ count },
    ghost few: { count ≤ 32 },
    ghost within: { (b a : ℕ) → slice_index_or codes b None ≡ Some a → a < 32 },
}

impl Readings {
    ghost use Rattle.grammar.specs.Refusals.{accepted_unless};
    ghost use Rattle.layers.specs.Renaming.{readings_refused, readings_made, read_refused, reading_to, unread as unread_all, reading as reading_of};
    ghost use Rattle.layers.specs.Held.{recorder as recorder_of};

    // So many recorder codes, each read as nothing.
    // With a number out of range there is one: a value refused in the making is its smallest, so this answers a value beside a refusal.
    pub fn new(count: u32) -> (Readings, Option<Refusal>)
        ensures refusal { result.1 ≡ readings_refused count }
        ensures means { recorder_of result.0 ≡ readings_made count }
    {
        if (1..=32).contains(&count) {
            (Readings::unread(count), None)
        } else {
            (Readings::unread(1), Some(Refusal::NumberOutOfRange))
        }
    }

    // From now on `recorder` is read as `code`.
    pub fn read_as(&mut self, recorder: u8, code: u8) -> Result<(), Refusal>
        ensures refusal { result ≡ accepted_unless (read_refused (recorder_of self.old) recorder code) }
        ensures means { recorder_of self.new ≡ reading_to recorder code (recorder_of self.old) }
        ensures same { OnErr result (self.new ≡ self.old) }
    {
        if u32::from(recorder) < self.count && code < 32 {
            self.put(recorder, code);
            Ok(())
        } else {
            Err(Refusal::NumberOutOfRange)
        }
    }

    // How many recorder codes there are.
    pub fn count(&self) -> u32
        ensures { result ≡ (recorder_of self.now).count }
    {
        self.count
    }

    // What a recorder code is read as.
    pub(crate) fn reading(&self, recorder: u8) -> Option<u8>
        ensures { result ≡ (recorder_of self.now).read recorder }
    {
        if u32::from(recorder) < self.count {
            self.codes[recorder as usize]
        } else {
            None
        }
    }

    // So many recorder codes, each read as nothing.
    fn unread(count: u32) -> Readings
        requires { (1 ≤ count) × (count ≤ 32) }
        ensures { recorder_of result ≡ unread_all count }
    {
        Readings {
            count,
            codes: [None; 32],
        }
    }

    // Writes one reading.
    fn put(&mut self, recorder: u8, code: u8)
        requires { (recorder < self.old.count) × (code < 32) }
        ensures { recorder_of self.new ≡ reading_of recorder code (recorder_of self.old) }
    {
        self.codes[recorder as usize] = Some(code);
    }
}
