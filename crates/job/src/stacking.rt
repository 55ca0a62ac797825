// The grammar of a job: a renaming, if there is one, over an intersection over a ban over the table.
ghost use Rattle.automata.specs.Held.{table_machine};
ghost use Rattle.layers.specs.Held.{banned};
ghost use Rattle.job.specs.Describing.{stacked};
ghost use Rattle.job.specs.Held.{recorder_in};
ghost use Rattle.job.specs.Reports.{accepted, Comes};

use crate::asking::report;
use answer::report::Report;
use automata::table::TableAutomaton;
use entries::call::Call;
use grammar::grammar::Grammar;
use layers::ban::Ban;
use layers::bans::Bans;
use layers::intersection::Intersection;
use layers::readings::Readings;
use layers::renaming::Renaming;

// What the calls come to by the layers over a grammar. Its type is a parameter, since layers over the type of the table itself get no generated proof; neither does a function that takes the description by value, so its parts are parameters.
pub(crate) fn stack_report<G: Grammar + Drop>(
    bottom: G,
    bans: Bans,
    automaton: TableAutomaton,
    readings: Option<Readings>,
    calls: &[Call],
) -> Report
    ensures { let m = stacked (banned bans) (table_machine automaton) (recorder_in readings) (G.meaning bottom) in Comes m (accepted m 4096 calls.now) result }
{
    let banned = Ban::lay(bottom, bans);
    let (crossed, _) = Intersection::lay(banned, automaton);
    match readings {
        None => report(&crossed, calls),
        Some(readings) => {
            let (renamed, _) = Renaming::lay(crossed, readings);
            report(&renamed, calls)
        }
    }
}
