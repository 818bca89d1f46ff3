//! Scenes of a run: what everybody says in one, and the world in memory in which it is said.
#![tactic(auto)]

mod scene;
mod scene_text;
mod waiting_links;
mod world;

pub use scene::{Opening, Role, Scene, SceneSetting, calm, world_of};
pub use scene_text::read_scenes;
pub use waiting_links::{Manner, WaitingInlet, WaitingOutlet};
pub use world::{SceneDoor, SceneRecorder, SceneWorld};
