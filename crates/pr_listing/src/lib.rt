//! Listings as people keep them: saved programs, petcat's text and what magazines print, as the scripts
//! that they say.
//!
//! [`program_text`] makes a script's text of a saved program, a line of the text for a line of the
//! program. `pr_basic` reads that text as any other, so the grammar, the first fault and everything
//! above them stay as they are: a saved program is of the statements of which its text is a script.
//!
//! A script's text can say all that a program can. A string of a script holds bytes 32 to 126, and a
//! program's string any byte but 0 and 34; but a list of a script also has CHR$, and its parts need
//! no mark between them, so byte 18 in a string is written as `"CHR$(18)"`: the string ends, the CHR$
//! says the byte, and the string goes on. The bytes of the list, and so all that is printed, are the
//! same, and so is the fault of a list of more than 255 bytes. Outside strings a token is written as
//! its keyword and a space, so that no keyword joins what follows it (PRINT and then `#` is not
//! PRINT#). A letter that is no token is followed by a space too, so that letters make no keyword;
//! what no text holds there is written as `?`. Neither begins anything in a script. A remark's
//! bytes count for nothing. Each line begins with its number and ends with byte 10, so a fault of the
//! text is reported with the line of the program.
//!
//! [`typed_text`] makes the text of petcat's text and of a magazine's listing: one reader, by the
//! [`Spelling`] of the strings. [`found_form`] finds the form of a listing in its first bytes; a saved
//! program may be in a P00 or T64 file.
//!
//! `specs/Program.antt` says which lines the bytes of a saved program hold, and where it is cut off;
//! `specs/Listing.antt` says the text of lines; `specs/Typed.antt` says the text of the other forms, and
//! `specs/Names.antt` the names of bytes in them; `specs/Containers.antt` says where a program is in a file
//! of another kind, `specs/Found.antt` which form first bytes tell.
#![tactic(auto)]

mod containers;
mod fault;
mod form;
mod found;
mod hints;
mod input;
mod keywords;
pub mod laws;
mod line;
mod names;
mod places;
mod program;
mod token_names;
mod typed;

pub use containers::{is_p00, is_t64, program_in, tape_files};
pub use fault::ListingFault;
pub use form::{
    ListingForm, Refusal, each_listing_has_one_text_or_one_fault, plain_form, read_listing,
    script_text,
};
pub use found::{begins_with_heading, found_form};
pub use hints::{has_typed_strings, looks_like_disk, looks_like_text, looks_saved};
pub use input::{TextFault, read_text};
pub use names::{Brackets, Spelling, bracketed};
pub use places::program_byte;
pub use program::{Front, front_of, program_text};
pub use token_names::{long_token_name, token_name};
pub use typed::typed_text;
