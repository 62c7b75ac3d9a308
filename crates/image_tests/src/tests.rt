//! The cases of images, and of what carries and keeps them.

mod images;
mod keepers;
mod made;
mod orders;
mod packets;
mod routes;
