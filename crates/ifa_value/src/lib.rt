//! The items of a name's value (IFA-0001): the object that it is, the well-shaped elements of each item, and the entries of its map.
#![tactic(auto)]

mod elements;
mod import;
mod item;
mod labels;
mod made;
mod object;
mod reading;
mod shape;
mod size;
mod text;

pub use item::{Element, Elements, Key};
pub use labels::label_number;
pub use object::IfaObject;
pub use reading::read_value;
