use calls::answer::Answer;
use calls::refusal::Refusal;
use listing::line::Line;
use listing::listing_of;

/// Prints a listing that has a line for each kind of answer.
pub(crate) fn show_answers(rt: &HostRuntime) -> anyhow::Result<()> {
    let lines = [
        (0, Answer::Done),
        (9, Answer::Begun { transaction: 1 }),
        (
            14,
            Answer::Found {
                value: u64::MAX,
                writer: 255,
            },
        ),
        (21, Answer::Polled { nodes: 8 }),
        (26, Answer::Yes { number: 587_775 }),
        (32, Answer::NoOvertaken { key: 3 }),
        (38, Answer::NoPlace { key: 63 }),
        (44, Answer::Committed { stamp: 514 }),
        (49, Answer::Aborted),
        (54, Answer::Applied { transaction: 10 }),
        (
            32_767,
            Answer::Refused {
                refusal: Refusal::NotYet,
            },
        ),
    ]
    .map(|(place, answer)| Line { place, answer });
    let text = listing_of(rt.alloc(), &lines)?;
    println!(rt; "every answer")?;
    print!(rt; "{text}")?;
    Ok(())
}
