//! A page over a router: what an HTTP request asks for, the commands of a session that it makes,
//! and the response to it.
#![tactic(auto)]

mod answer_json;
mod calls;
mod content_kind;
mod figures;
mod flat_json;
mod headers;
mod kept;
pub mod laws;
mod lines;
mod measuring;
mod metrics;
mod own_host;
mod page_request;
mod page_text;
mod queries;
mod requests;
mod responding;
mod route;
mod sample;
mod service;
mod survey;
mod values;

pub use content_kind::ContentKind;
pub use figures::{Figures, NoFigures};
pub use flat_json::flat_text;
pub use lines::push_escaped;
pub use page_request::{PageRequest, RequestRefusal};
pub use page_text::{PAGE, POLICY};
pub use requests::parse_request;
pub use sample::Sample;
pub use service::Page;
pub use survey::Survey;
