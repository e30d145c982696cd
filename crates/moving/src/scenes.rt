//! The document is filed, moved, and nearly moved back. A begin that is refused ends its scene, without an error: the answer was printed.

use crate::folders::{FOLDER_A, FOLDER_B};
use crate::story::Story;
use calls::sizes::TransactionNumber;
use store::VersionStore;
use tickets::kinds::{Search, Update};

/// Files the document in folder A.
pub(crate) fn file_document<S: VersionStore>(story: &mut Story<'_, S>) {
    let Some(update) = story.begin::<Update>("begin an update") else {
        return;
    };
    story.write(&update, FOLDER_A, 1);
    let offered = story.offer(update);
    let t = offered.number();
    story.vote(t, FOLDER_A.node);
    story.decide(offered);
    story.apply(t, FOLDER_A.node);
}

/// Moves the document to folder B. A `Search` that began before sees it where it was. One that begins while the move is applied at one node
/// only is put off at the other.
pub(crate) fn move_document<S: VersionStore>(story: &mut Story<'_, S>) {
    let Some(reader) = story.begin::<Search>("begin a Search") else {
        return;
    };
    story.read("the first Search", &reader, FOLDER_A);
    if let Some(t) = commit_move(story) {
        story.apply(t, FOLDER_A.node);
        look_while_half_moved(story, t);
    }
    story.read("the first Search", &reader, FOLDER_B);
    story.finish("the first Search", reader);
}

/// Commits the move, which is then applied nowhere yet, and gives its number.
fn commit_move<S: VersionStore>(story: &mut Story<'_, S>) -> Option<TransactionNumber> {
    let update = story.begin::<Update>("begin an update")?;
    story.read("the update", &update, FOLDER_A);
    story.write(&update, FOLDER_A, 0);
    story.write(&update, FOLDER_B, 1);
    let offered = story.offer(update);
    let t = offered.number();
    story.vote(t, FOLDER_A.node);
    story.vote(t, FOLDER_B.node);
    story.decide(offered);
    Some(t)
}

/// Looks for the document while it has left folder A and is not in folder B yet, since that one's node has yet to apply the move.
fn look_while_half_moved<S: VersionStore>(story: &mut Story<'_, S>, t: TransactionNumber) {
    let Some(reader) = story.begin::<Search>("begin a Search") else {
        return;
    };
    story.read("the second Search", &reader, FOLDER_A);
    story.read("the second Search", &reader, FOLDER_B);
    story.apply(t, FOLDER_B.node);
    story.read("the second Search", &reader, FOLDER_B);
    story.finish("the second Search", reader);
}

/// Moves the document back three times: cancelled before the offer, cancelled after it, and decided while a vote is outstanding.
pub(crate) fn move_in_vain<S: VersionStore>(story: &mut Story<'_, S>) {
    cancel_unoffered(story);
    cancel_offered(story);
    decide_too_early(story);
    let Some(reader) = story.begin::<Search>("begin a Search") else {
        return;
    };
    story.read("the Search", &reader, FOLDER_A);
    story.read("the Search", &reader, FOLDER_B);
    story.finish("the Search", reader);
}

fn cancel_unoffered<S: VersionStore>(story: &mut Story<'_, S>) {
    let Some(update) = story.begin::<Update>("begin an update") else {
        return;
    };
    story.write(&update, FOLDER_B, 0);
    story.cancel("the update", update);
}

fn cancel_offered<S: VersionStore>(story: &mut Story<'_, S>) {
    let Some(update) = story.begin::<Update>("begin an update") else {
        return;
    };
    story.write(&update, FOLDER_B, 0);
    let offered = story.offer(update);
    story.cancel("the offered update", offered);
}

fn decide_too_early<S: VersionStore>(story: &mut Story<'_, S>) {
    let Some(update) = story.begin::<Update>("begin an update") else {
        return;
    };
    story.write(&update, FOLDER_A, 1);
    story.write(&update, FOLDER_B, 0);
    let offered = story.offer(update);
    let t = offered.number();
    story.vote(t, FOLDER_A.node);
    story.decide(offered);
    story.learn(t, FOLDER_A.node);
}
