//! The names that a kernel file declares: what each stands for, and what is wrong with them line by line.
#![tactic(auto)]

mod declarations;
mod ids;
mod limit;
mod lines;
mod numbering;
mod said;
mod scopes;
mod shapes;
mod table;

pub use declarations::Declarations;
pub use ids::Ids;
pub use limit::{Limit, LineFaults};
pub use said::{Said, Sort};
pub use scopes::{BodyScope, ParameterScope};
