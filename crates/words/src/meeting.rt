// What happens when two heads meet. Their kinds choose an action by a table, and the action says
// which parts of them are compared.
ghost use Rattle.std.specs.Prelude.{◌≡◌, ◌<◌};
ghost use Rattle.words.specs.Head.{label_and_count, labels_agree, same_symbol};
ghost use Rattle.words.specs.Meeting.{head_number, meeting_of, outcome_of};

use crate::head;
use crate::head::Head;

// What is to be done with two heads, by their kinds alone.
#[derive(Clone, Copy, PartialEq, Eq)]
pub enum Action {
    Join,
    JoinIfLabelsAgree,
    // Join, and go down to the children, if label and count agree.
    GoDownIfSymbolsAgree,
    Clash,
}

// What came of two heads.
#[derive(Clone, Copy, PartialEq, Eq)]
pub enum Outcome {
    Joined,
    // Joined, and their children are to be joined place by place.
    JoinedGoDown,
    Clash,
}

// The nine meetings of kinds: variable, constant, function against the same three.
//
// Kept: a table of actions, and the kinds as its places: document 01 names the form, a constant array of
// arrays.
const MEETINGS: [[Action; 3]; 3] = [
    [Action::Join, Action::Join, Action::Join],
    [Action::Join, Action::JoinIfLabelsAgree, Action::Clash],
    [Action::Join, Action::Clash, Action::GoDownIfSymbolsAgree],
];

// The row of a head in the table, which is also its column.
fn place(head: Head) -> usize
    ensures { (result ≡ head_number head) × (result < 3) }
{
    match head {
        Head::Variable(_) => 0,
        Head::Constant(_) => 1,
        Head::Function(_, _) => 2,
    }
}

// What is to be done where two heads meet: the table's entry at their kinds.
pub fn meeting(left: Head, right: Head) -> Action
    ensures { result ≡ meeting_of left right }
{
    let row = place(left);
    let column = place(right);
    MEETINGS[row][column]
}

fn labels_agree(left: Head, right: Head) -> bool
    ensures { result ≡ labels_agree left right }
{
    head::label_of(left) == head::label_of(right)
}

// Whether label and count of two heads agree.
fn symbols_agree(left: Head, right: Head) -> bool
    ensures { result ≡ same_symbol (label_and_count left) (label_and_count right) }
{
    head::label_and_count(left) == head::label_and_count(right)
}

// What comes of two heads that meet: the table is asked, and then what its entry says is compared.
pub fn meet(left: Head, right: Head) -> Outcome
    ensures { result ≡ outcome_of left right }
{
    match meeting(left, right) {
        Action::Join => Outcome::Joined,
        Action::JoinIfLabelsAgree => {
            if labels_agree(left, right) {
                Outcome::Joined
            } else {
                Outcome::Clash
            }
        }
        Action::GoDownIfSymbolsAgree => {
            if symbols_agree(left, right) {
                Outcome::JoinedGoDown
            } else {
                Outcome::Clash
            }
        }
        Action::Clash => Outcome::Clash,
    }
}
