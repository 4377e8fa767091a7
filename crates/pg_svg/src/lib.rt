//! A picture of a journal as SVG.
//!
//! `svg` writes the whole, `shapes` its parts, `scale` says where things stand in pixels, `label`
//! what is written at a message's way and how wide texts are, and `escaped` is text inside XML.
//!
//! It touches what is drawn already (`pg_picture`), and reads no journal. Texts come from journals,
//! so each is written escaped, and no text can break the picture (`escaped_is_plain`).
//!
//! Signs have shapes and not only colours, and lines differ by their dashes, so that a picture can
//! be read in black and white. A message's label stands behind the receiver's line as seen from
//! the sender, in a row in which nothing else ends.
//!
//! Definitions: `specs/Svg`, `Shapes`, `Scale`, `Label`, `Escaped`. docs/FORMATS.md, section 11. A
//! further sign: its shape in `svg`, where the signs are told, and in `shapes` and `specs/Shapes`.
#![tactic(auto)]

mod escaped;
mod label;
mod scale;
mod shapes;
mod svg;

pub use escaped::{escaped_is_plain, write_escaped};
pub use scale::Scale;
pub use svg::write_svg;
