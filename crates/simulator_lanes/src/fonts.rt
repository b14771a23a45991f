//! How labels look.

use picture_shapes::{Anchor, Face, Font};

/// The name of a room.
pub const TITLE: Font = Font {
    size: 16,
    face: Face::Bold,
    anchor: Anchor::Start,
};

/// What is above a part of a room's picture.
pub const HEADING: Font = Font {
    size: 12,
    face: Face::Bold,
    anchor: Anchor::Start,
};

/// The names of lanes, and what is said of a room and of letters.
pub const WORDS: Font = Font {
    size: 12,
    face: Face::Plain,
    anchor: Anchor::Start,
};

/// Protocols.
pub const CODE: Font = Font {
    size: 11,
    face: Face::Code,
    anchor: Anchor::Start,
};

/// The letter of a step.
pub(crate) const LETTER: Font = Font {
    size: 10,
    face: Face::Bold,
    anchor: Anchor::Middle,
};

/// The number of a word, after a letter.
pub(crate) const DIGIT: Font = Font {
    size: 7,
    face: Face::Bold,
    anchor: Anchor::Middle,
};

/// What is under the bar of a turn.
pub const SMALL: Font = Font {
    size: 10,
    face: Face::Plain,
    anchor: Anchor::Start,
};

/// A crash.
pub(crate) const SMALL_BOLD: Font = Font {
    size: 10,
    face: Face::Bold,
    anchor: Anchor::Start,
};

/// The numbers of steps.
pub(crate) const AXIS: Font = Font {
    size: 9,
    face: Face::Plain,
    anchor: Anchor::Middle,
};

/// Proposals.
pub(crate) const PROPOSAL: Font = Font {
    size: 9,
    face: Face::Code,
    anchor: Anchor::Start,
};

/// Proposals that were not chosen.
pub(crate) const DROPPED: Font = Font {
    size: 9,
    face: Face::Struck,
    anchor: Anchor::Start,
};

/// Events.
pub const EVENT: Font = Font {
    size: 11,
    face: Face::Code,
    anchor: Anchor::Middle,
};

/// The letters below all rooms.
pub const LEGEND: Font = Font {
    size: 12,
    face: Face::Bold,
    anchor: Anchor::Start,
};
