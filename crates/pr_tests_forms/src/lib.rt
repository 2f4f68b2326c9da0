//! Tests of forms: dots, characters from a file, pages as pictures, their sheets, documents, recordings in the formats of other tools, what recordings say, and stories.
#![tactic(auto)]

#[cfg(test)]
mod characters;
#[cfg(test)]
mod decoder;
#[cfg(test)]
mod documents;
#[cfg(test)]
mod dots;
#[cfg(test)]
mod dumps;
#[cfg(test)]
mod growths;
#[cfg(test)]
mod oddities;
#[cfg(test)]
mod picture;
#[cfg(test)]
mod pulses;
#[cfg(test)]
mod readings;
#[cfg(test)]
mod samples;
#[cfg(test)]
mod sheets;
#[cfg(test)]
mod story;
#[cfg(test)]
mod surveys;
#[cfg(test)]
mod tables;
#[cfg(test)]
mod text;
#[cfg(test)]
mod written_dumps;
