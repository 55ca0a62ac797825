// What the commands of a job have described so far.
use automata::table::TableAutomaton;
use layers::bans::Bans;
use layers::readings::Readings;
use lists::list::List;
use table::draft::Draft;

#[derive(Drop)]
pub(crate) struct Description<'a> {
    // the rules of the table
    pub(crate) draft: Draft<'a>,
    // the numbers of the banned rules
    pub(crate) bans: Bans,
    // the automaton; before command 05 the one that lets everything through
    pub(crate) automaton: TableAutomaton,
    // the readings of the recorder codes, if command 07 came
    pub(crate) readings: Option<Readings>,
    // the entries, each as a set of codes
    pub(crate) entries: List<u32, 64>,
}
