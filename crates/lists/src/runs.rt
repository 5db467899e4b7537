// Runs of equal words in an ascending list: with them a list is seen to be sorted of another with no sort.
ghost use Rattle.std.specs.Prelude.{◌≡◌, ◌<◌};
ghost use Rattle.lists.specs.Runs.{run_after};

// The last word met, and how often it was met in a row.
#[derive(Clone, Copy, Debug, PartialEq, Eq)]
pub struct Run {
    pub word: u64,
    pub times: u64,
}

impl Run {
    // One word more.
    #[tactic(auto, unfolding(crate::specs::Runs::run_after))]
    pub fn next(self, x: u64) -> Run
        requires { self.times < 18446744073709551615 }
        ensures { result ≡ run_after self x }
    {
        if x == self.word {
            Run {
                word: x,
                times: self.times + 1,
            }
        } else {
            Run { word: x, times: 1 }
        }
    }
}
