// A run of calls on a chart: what each call is shown, and the token of the trial that is open.
ghost use Rattle.std.specs.Prelude.{◌≡◌, is_some};

use chart::chart::Chart;
use entries::trial::Trial;
use semiring::semiring::Semiring;

pub(crate) struct Run<'r, 'g, 'w, 'a, S: Semiring, G, W> {
    pub(crate) chart: &'r mut Chart<'a, S>,
    pub(crate) grammar: &'g G,
    pub(crate) weighing: &'w W,
    pub(crate) held: Option<Trial>,
    ghost marked: { is_some held ≡ chart.now.entries.trial },
}
