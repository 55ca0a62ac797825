// The grammar of the known sheets, the readings of recorder codes that go with it, and a record that nothing was written to.
use grammar::rule::{Expansion, Rule};
use layers::readings::Readings;
use table::draft::Draft;
use table::table::Table;
use tree::record::Record;

// What records hold before a tree is written to them.
pub(crate) const UNTOUCHED: Record = Record {
    begin: 9,
    end: 9,
    bottom: 9,
};

// S to S S (cost 1), S to 0 (cost 2), S to 1 (cost 3).
pub(crate) fn known_rules(rows: &mut [Rule]) -> Table<'_> {
    let mut draft = Draft::new(rows, 1, 2, 0);
    let _ = draft.add(0, Expansion::Pair { left: 0, right: 0 }, 1);
    let _ = draft.add(0, Expansion::Leaf { code: 0 }, 2);
    let _ = draft.add(0, Expansion::Leaf { code: 1 }, 3);
    draft.seal()
}

// The recorder codes 0, 1, 2, read as 0, 0, 1.
pub(crate) fn known_readings() -> Readings {
    let (mut readings, _) = Readings::new(3);
    for (recorder, code) in [(0, 0), (1, 0), (2, 1)] {
        let _ = readings.read_as(recorder, code);
    }
    readings
}
