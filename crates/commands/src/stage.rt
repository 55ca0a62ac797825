// How far a job has come, which says what commands may come next.
ghost use Rattle.std.specs.Prelude.{◌≡◌};
ghost use Rattle.commands.specs.Stages.{next_stage};

use crate::command::Command;

#[derive(Clone, Copy, PartialEq, Eq, Debug)]
pub enum Stage {
    // nothing has come
    Declaring,
    // the grammar has come, and no entry; whether an automaton and a renaming have
    Describing { automaton: bool, renaming: bool },
    // an entry has come
    Entries,
    // the end has come
    Ended,
}

impl Stage {
    // The stage after one command more, or none where the command may not come. A match on both: commands are values of the format, and no steps to run.
    pub(crate) fn after(self, command: Command) -> Option<Stage>
        ensures { result ≡ next_stage self command }
    {
        match (self, command) {
            (Stage::Declaring, Command::Grammar { .. }) => Some(Stage::Describing {
                automaton: false,
                renaming: false,
            }),
            (
                Stage::Describing { .. },
                Command::Pair { .. } | Command::Leaf { .. } | Command::Ban { .. },
            ) => Some(self),
            (
                Stage::Describing {
                    automaton: false,
                    renaming,
                },
                Command::Automaton { .. },
            ) => Some(Stage::Describing {
                automaton: true,
                renaming,
            }),
            (
                Stage::Describing {
                    automaton: true,
                    ..
                },
                Command::Step { .. },
            ) => Some(self),
            (
                Stage::Describing {
                    automaton,
                    renaming: false,
                },
                Command::Renaming { .. },
            ) => Some(Stage::Describing {
                automaton,
                renaming: true,
            }),
            (Stage::Describing { renaming: true, .. }, Command::Reading { .. }) => Some(self),
            (Stage::Describing { .. } | Stage::Entries, Command::Entry { .. }) => Some(
                Stage::Entries,
            ),
            (Stage::Describing { .. } | Stage::Entries, Command::End) => Some(Stage::Ended),
            _ => None,
        }
    }
}
