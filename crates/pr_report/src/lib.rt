//! What frames and readings say, as text: the story of a trace, and the lines, summary and verdict of a
//! recording.
//!
//! The headlines are on [`push_story`], whose text `specs/StoryText.antt` defines for any edges; on
//! [`push_reading`], whose text `specs/ReadingText.antt` defines reading by reading; and on
//! [`Survey::push_summary`], whose text `specs/Summary.antt` defines over the whole list of the readings
//! taken. Only the texts grow with the recording.
//!
//! - `numbers` is the one place that adds numbers to a text.
//! - [`FrameTimer`] gives the frames of a trace with their moments, edge by edge and without memory. It
//!   keeps no history: `HasTold` says that, whatever edges follow, all frames are those given and those still
//!   to come. A timer that refuses an edge is as it was.
//! - `story_line` writes the line of an acknowledged byte, in a story and in a recording's report; `story` the
//!   story of a whole list of edges; `reading_line` the other lines of a recording.
//! - `context` is what acknowledged bytes come to for the readings after them: which byte of an attention a
//!   command is, whether a printer listens, and who sends data bytes.
//! - `interval` has the intervals of a byte, with their names and bounds; `detail` says which bounds are meant;
//!   `outside` finds the first interval outside.
//! - `json_line` writes a reading and the verdict as JSON.
//! - `tally` keeps one interval, with a counter for each length below 16384 microseconds, so that neither
//!   memory nor the time for a reading grows with the recording; `counts` how many readings of each kind
//!   there are; `survey` has both, with the relation `HasTaken` in its contracts.
//! - `oddities` looks at the levels of the lines, edge by edge, and says at the end what is odd about a
//!   recording: no byte acknowledged, no attention, lines that rest at 0. It says too how many pulses are brief, which
//!   `brief_pulses` counts.
//! - `proofs/Tallied.antt` takes a tally from a list of lengths to the longer one, and `Middle.antt` ties the
//!   first counter at which half of the lengths are reached to the middle. `Lawful.antt` and `Stories.antt` go
//!   over the pieces of lawful traces, for the laws in `laws`.
#![tactic(auto)]

mod brief_pulses;
mod context;
mod counts;
mod detail;
mod frame_timer;
mod interval;
mod json_line;
mod laws;
mod numbers;
mod oddities;
mod outside;
mod reading_line;
mod report;
mod story;
mod story_line;
mod survey;
mod tally;
mod timed_frame;
mod verdict;

pub use context::{Context, Preceding, Talker};
pub use detail::{Bounds, Detail};
pub use frame_timer::FrameTimer;
pub use interval::{INTERVALS, Interval, longest_answer, transfer_of};
pub use json_line::{push_json_reading, push_json_verdict};
pub use laws::{
    frames_are_told, lawful_traces_are_told, lawful_traces_are_within, lines_add_up,
    middles_are_least, stories_add_up,
};
pub use oddities::{LinesSeen, Oddities, is_acknowledged, push_oddities};
pub use reading_line::push_reading;
pub use report::Report;
pub use story::push_story;
pub use story_line::{is_data, push_story_line};
pub use survey::Survey;
pub use timed_frame::TimedFrame;
