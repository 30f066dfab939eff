//! How much is left of deadlines.
ghost use Rattle.std.specs.Prelude.{◌≡◌, ◌+◌, fold, nat_lt};
ghost use Rattle.cqf_program_planning.specs.Judging.{slack_by, slacks_of, tighter, tightest_of};

use crate::candidates::Slack;
use cqf_program_plans::Latency;

/// Returns whether less is left of a deadline than of another, if a frame takes `most` and `other_most` at most.
fn is_less_left(deadline: u32, most: u64, other: u32, other_most: u64) -> bool
    ensures { result ≡ nat_lt (deadline + other_most) (other + most) }
{
    let ours = u128::from(deadline) + u128::from(other_most);
    let theirs = u128::from(other) + u128::from(most);
    ours < theirs
}

/// Returns whether less is left of a deadline than of another.
fn is_tighter(slack: &Slack, other: &Slack) -> bool
    ensures { result ≡ nat_lt (slack.now.deadline + other.now.most) (other.now.deadline + slack.now.most) }
{
    is_less_left(slack.deadline, slack.most, other.deadline, other.most)
}

/// Returns the tighter of two, the first of equals.
fn tighter(first: Option<Slack>, slack: Slack) -> Option<Slack>
    ensures { result ≡ tighter first slack }
{
    match first {
        Some(first) => {
            if is_tighter(&slack, &first) {
                Some(slack)
            } else {
                Some(first)
            }
        }
        None => Some(slack),
    }
}

/// Returns the tighter of one and what is left of a latency's deadline, if it has one.
fn tighter_by(first: Option<Slack>, latency: &Latency) -> Option<Slack>
    ensures { result ≡ fold tighter first (slack_by latency.now latency.now.deadline) }
{
    match latency.deadline {
        Some(deadline) => {
            let slack = Slack {
                stream: latency.stream.copied(),
                deadline,
                most: latency.most,
            };
            tighter(first, slack)
        }
        None => first,
    }
}

/// Returns the first of the latencies' deadlines with the least time left.
pub(crate) fn tightest_of(latencies: &[Latency]) -> Option<Slack>
    ensures { result ≡ tightest_of (slacks_of latencies.now) }
{
    let mut tightest = None;
    for latency in latencies {
        tightest = tighter_by(tightest, latency);
    }
    tightest
}
