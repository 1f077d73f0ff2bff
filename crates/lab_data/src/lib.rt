//! The laboratory: data and pictures that go into machines and come out of them.
#![tactic(auto)]

mod data;
mod data_laws;
mod lab;
mod order;
mod picture_laws;
mod pictures;

pub use cm_model::Tag;
pub use data::{flags, get, put};
pub use data_laws::{each_processor_comes_once, numbers_read_back};
pub use lab::{LabFault, Task, perform, perform_watched};
pub use lab_figures::{
    Form, Format, Look, NumbersFault, Palette, Picture, PictureFault, read_numbers, read_picture,
    write_in, write_look, write_numbers,
};
pub use lab_machine::RoomFault;
pub use lab_route::{Excerpt, RouteFault};
pub use lab_study::{Table, Watch};
pub use order::Order;
pub use picture_laws::{dots_are_places, pictures_read_back};
pub use pictures::{ShowFault, Shown, show};
