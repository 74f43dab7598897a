//! Valid setups: sources, relations and views; workloads of source transactions that are valid on them; cuts, plans of
//! runs, and names.
#![tactic(auto)]

mod cut;
mod error;
mod labels;
mod limits;
mod plan;
mod setup;
mod validity;
mod work;

pub use cut::Cut;
pub use error::{BatchErr, SetupErr, WorkErr};
pub use labels::{Labels, Name, NameLists, Names};
pub use plan::{Events, Plan};
pub use setup::Setup;
pub use whips_flow::Event;
pub use work::Workload;
