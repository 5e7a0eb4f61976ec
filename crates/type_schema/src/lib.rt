//! Schemas of types, records of vertices and edges, and the rows in which a store keeps a graph.
//!
//! A schema and a record stand for lists, a store key and a value for the bytes that a row has. The layer knows what a
//! record must be to fit its schema; it knows neither graphs nor where rows are kept.
#![tactic(auto)]

mod checking;
mod copies;
mod form;
mod key_order;
mod laws;
mod layout;
mod merging;
mod names;
mod objects;
mod opening;
mod refusal;
mod rows;
mod schema;
mod size;
#[cfg(test)]
mod tests;

pub use checking::{check, key, key_of, value_in};
pub use form::{is_type, name_of};
pub use laws::{layouts_read_back, objects_read_back, structures_stay};
pub use layout::{front_name, front_record, front_schema, push_name, push_record, push_schema};
pub use merging::{add, merge};
pub use names::{EdgeName, GraphName, TypeName, VertexName, whole_graph};
pub use objects::{
    EDGE_BODY, GraphRef, HALF_LIST, HEADER, Half, Header, VERTEX_BODY, body_bytes, body_of,
    half_key, half_of, header_bytes, header_of, index_key, list_of, long_bytes, long_of,
    short_bytes,
};
pub use opening::{FIRST_NUMBER, NAME_TYPE, NAMES, NAMES_NUMBER, SYSTEM_TENANT};
pub use refusal::{GraphFault, Refusal, Word, refuse, refuse_at};
pub use rows::{Change, Changes, RowChange, StoreKey, StoreValue, TypeSchema};
pub use schema::{Attr, Kind, Record, Schema};
pub use size::{room_behind_name, room_behind_record, room_behind_schema};
