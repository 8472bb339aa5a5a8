// A deadline: the number of cycles until the next interrupt, or none.
ghost use Rattle.std.specs.Prelude.{◌≡◌};
ghost use Rattle.wide.specs.Deadline.{number_of, sooner};

use crate::number::Wide;

// The smaller of two deadlines; where one is none, the other.
#[tactic(auto, using(crate::proofs::TwoWords::least_is))]
pub fn sooner(a: Option<Wide>, b: Option<Wide>) -> Option<Wide>
    ensures { number_of result ≡ sooner (number_of a) (number_of b) }
{
    let Some(x) = a else {
        return b;
    };
    let Some(y) = b else {
        return a;
    };
    Some(x.min(y))
}
