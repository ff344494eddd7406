mod examples;
mod names;
mod shared;
mod tree;
mod world;
