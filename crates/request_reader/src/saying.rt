//! What an operation says, out of its object.
ghost use Rattle.std.specs.Prelude.{◌≡◌, codes, option_map, option_and_then, IfOk, Ok};
ghost use Rattle.a1_json.specs.Fields.{member_of, as_text, as_int, as_flag};
ghost use Rattle.a1ql_reader.specs.Values.{given_of};
ghost use Rattle.type_schema.specs.Names.{graph_whole};
ghost use Rattle.type_schema.specs.Refusals.{need};
ghost use Rattle.request_reader.specs.declared.forms.Verb.TheVariants as verbs;
ghost use Rattle.request_reader.specs.declared.request.BadWord.TheVariants as bad;
ghost use Rattle.request_reader.specs.Request.{text_in, graph_in, number_in, given_in, given_members, fields_at, values_in, end_of, end_in, kind_named, is_indexed, attr_of, attrs_of, ruled, attrs_in, said, Reads};

use crate::forms::Verb;
use crate::naming::text_of;
use crate::request::{BadWord, RequestFault};
use crate::{End, Op};
use a1_base::{ReadFault, Txt};
use a1_json::{Json, fields_in, items_in, member};
use a1_value::Given;
use a1ql_reader::given_of;
use sqlite_items::Items;
use std::alloc::{AllocError, Global};
use type_schema::{Attr, GraphName, Kind, Schema, TypeSchema, is_type, whole_graph};

// ---- texts, graphs and numbers

#[tactic(auto, unfolding(type_schema::specs::Refusals::need))]
fn name_from(alloc: Global, text: Option<&str>) -> Result<Txt, RequestFault>
    ensures { Reads result (need (option_map (λ t. t.now) text.entry) bad.Attrs Ok) }
{
    match text {
        Some(text) => Ok(Txt::from_text(alloc, text)?),
        None => Err(RequestFault::Bad(BadWord::Attrs)),
    }
}

/// The graph of a text, or this word where it has none.
#[tactic(auto, unfolding(type_schema::specs::Refusals::need))]
pub fn graph_from(
    alloc: Global,
    word: BadWord,
    text: Option<&str>,
) -> Result<GraphName, RequestFault>
    ensures { Reads result (need (option_and_then graph_whole (option_map (λ t. t.now) text.entry)) word Ok) }
{
    let Some(text) = text else {
        return Err(RequestFault::Bad(word));
    };
    match whole_graph(alloc, text.as_bytes()) {
        Ok(graph) => Ok(graph),
        Err(ReadFault::Malformed) => Err(RequestFault::Bad(word)),
        Err(ReadFault::Memory) => Err(RequestFault::Memory),
    }
}

fn text_in(alloc: Global, name: &str, members: &[(Txt, Json)]) -> Result<Txt, RequestFault>
    ensures { Reads result (text_in name.now members.now) }
{
    name_from(alloc, text_of(member(members, name)))
}

fn graph_in(alloc: Global, name: &str, members: &[(Txt, Json)]) -> Result<GraphName, RequestFault>
    ensures { Reads result (graph_in name.now members.now) }
{
    graph_from(alloc, BadWord::Attrs, text_of(member(members, name)))
}

fn int_of(json: Option<&Json>) -> Option<i64>
    ensures { result ≡ option_and_then as_int (option_map (λ j. j.now) json.entry) }
{
    json?.as_int()
}

#[tactic(auto, unfolding(type_schema::specs::Refusals::need))]
fn number_in(name: &str, members: &[(Txt, Json)]) -> Result<i64, RequestFault>
    ensures { Reads result (number_in name.now members.now) }
{
    match int_of(member(members, name)) {
        Some(number) => Ok(number),
        None => Err(RequestFault::Bad(BadWord::Attrs)),
    }
}

// ---- values

fn given_at(alloc: Global, json: Option<&Json>) -> Result<Option<Given>, AllocError>
    ensures { IfOk result (λ given. given ≡ option_and_then given_of (option_map (λ j. j.now) json.entry)) }
{
    match json {
        Some(json) => given_of(alloc, json),
        None => Ok(None),
    }
}

#[tactic(auto, unfolding(type_schema::specs::Refusals::need))]
fn given_in(alloc: Global, name: &str, members: &[(Txt, Json)]) -> Result<Given, RequestFault>
    ensures { Reads result (given_in name.now members.now) }
{
    match given_at(alloc, member(members, name))? {
        Some(given) => Ok(given),
        None => Err(RequestFault::Bad(BadWord::Attrs)),
    }
}

// The members that are numbers or texts.
fn given_members(alloc: Global, members: &[(Txt, Json)]) -> Result<Items<(Txt, Given)>, AllocError>
    ensures { IfOk result (λ values. values ≡ given_members members.now) }
{
    let mut values = Items::new(alloc);
    for member in members {
        if let Some(given) = given_of(alloc, &member.1)? {
            values.push((member.0.copy(alloc)?, given))?;
        }
    }
    Ok(values)
}

// The members of the object at this name, or none where nothing is there.
fn fields_at<'a>(name: &str, members: &'a [(Txt, Json)]) -> &'a [(Txt, Json)]
    ensures { result.now ≡ fields_at name.now members.now }
{
    match member(members, name) {
        Some(json) => fields_in(json),
        None => &[],
    }
}

fn values_in(
    alloc: Global,
    name: &str,
    members: &[(Txt, Json)],
) -> Result<Items<(Txt, Given)>, AllocError>
    ensures { IfOk result (λ values. values ≡ values_in name.now members.now) }
{
    given_members(alloc, fields_at(name, members))
}

// ---- ends

#[tactic(auto, unfolding(type_schema::specs::Refusals::passing))]
fn end_of(alloc: Global, members: &[(Txt, Json)]) -> Result<End, RequestFault>
    ensures { Reads result (end_of members.now) }
{
    let kind = text_in(alloc, "type", members)?;
    let id = given_in(alloc, "id", members)?;
    Ok(End { kind, id })
}

#[tactic(auto, unfolding(crate::specs::Request::end_in))]
fn end_in(alloc: Global, name: &str, members: &[(Txt, Json)]) -> Result<End, RequestFault>
    ensures { Reads result (end_in name.now members.now) }
{
    end_of(alloc, fields_at(name, members))
}

// ---- attributes

// `int`, `text` or `bytes`.
fn kind_named(text: &str) -> Option<Kind>
    ensures { result ≡ kind_named text.now }
{
    match text {
        "int" => Some(Kind::Int),
        "text" => Some(Kind::Text),
        "bytes" => Some(Kind::Bytes),
        _ => None,
    }
}

fn kind_in(members: &[(Txt, Json)]) -> Option<Kind>
    ensures { result ≡ option_and_then kind_named (option_and_then as_text (member_of (codes "kind") members.now)) }
{
    kind_named(text_of(member(members, "kind"))?)
}

// The flag, which is false where it is absent.
fn is_indexed(members: &[(Txt, Json)]) -> bool
    ensures { result ≡ is_indexed (option_and_then as_flag (member_of (codes "index") members.now)) }
{
    match member(members, "index") {
        Some(json) => json.as_flag().unwrap_or(false),
        None => false,
    }
}

#[tactic(auto, unfolding(crate::specs::Request::attr_of, type_schema::specs::Refusals::passing, type_schema::specs::Refusals::need))]
fn attr_of(alloc: Global, members: &[(Txt, Json)]) -> Result<Attr, RequestFault>
    ensures { Reads result (attr_of members.now) }
{
    let name = text_in(alloc, "name", members)?;
    let Some(kind) = kind_in(members) else {
        return Err(RequestFault::Bad(BadWord::Attrs));
    };
    let index = is_indexed(members);
    Ok(Attr { name, kind, index })
}

#[tactic(auto, using(crate::proofs::EachLemmas::each))]
fn attrs_of(alloc: Global, items: &[Json]) -> Result<Schema, RequestFault>
    ensures { Reads result (attrs_of items.now) }
{
    let mut attrs = Vec::new(alloc);
    for item in items {
        attrs.push(attr_of(alloc, fields_in(item))?)?;
    }
    Ok(Schema { attrs })
}

#[tactic(auto, unfolding(crate::specs::Request::attrs_in))]
fn attrs_in(alloc: Global, name: &str, members: &[(Txt, Json)]) -> Result<Schema, RequestFault>
    ensures { Reads result (attrs_in name.now members.now) }
{
    match member(members, name) {
        Some(json) => attrs_of(alloc, items_in(json)),
        None => attrs_of(alloc, &[]),
    }
}

// The schema, where it obeys the rule of its kind of type.
#[tactic(auto, unfolding(type_schema::specs::Refusals::unless))]
fn ruled(schema: TypeSchema) -> Result<TypeSchema, RequestFault>
    ensures { Reads result (ruled schema) }
{
    if is_type(&schema) {
        Ok(schema)
    } else {
        Err(RequestFault::Bad(BadWord::Attrs))
    }
}

// ---- operations

#[tactic(auto, unfolding(crate::specs::Request::said, type_schema::specs::Refusals::passing))]
fn create_vertex_type(alloc: Global, json: &Json) -> Result<Op, RequestFault>
    ensures { Reads result (said verbs.CreateVertexType json.now) }
{
    let members = fields_in(json);
    let graph = graph_in(alloc, "graph", members)?;
    let name = text_in(alloc, "type", members)?;
    let attrs = attrs_in(alloc, "attrs", members)?;
    let schema = ruled(TypeSchema::OfVertices(attrs))?;
    Ok(Op::CreateType {
        graph,
        name,
        schema,
    })
}

#[tactic(auto, unfolding(crate::specs::Request::said, type_schema::specs::Refusals::passing))]
fn create_edge_type(alloc: Global, json: &Json) -> Result<Op, RequestFault>
    ensures { Reads result (said verbs.CreateEdgeType json.now) }
{
    let members = fields_in(json);
    let graph = graph_in(alloc, "graph", members)?;
    let name = text_in(alloc, "type", members)?;
    let attrs = attrs_in(alloc, "attrs", members)?;
    let schema = ruled(TypeSchema::OfEdges(attrs))?;
    Ok(Op::CreateType {
        graph,
        name,
        schema,
    })
}

#[tactic(auto, unfolding(crate::specs::Request::said, type_schema::specs::Refusals::passing))]
fn put(alloc: Global, json: &Json) -> Result<Op, RequestFault>
    ensures { Reads result (said verbs.Put json.now) }
{
    let members = fields_in(json);
    let graph = graph_in(alloc, "graph", members)?;
    let kind = text_in(alloc, "type", members)?;
    let v = values_in(alloc, "v", members)?;
    Ok(Op::Put { graph, kind, v })
}

#[tactic(auto, unfolding(crate::specs::Request::said, type_schema::specs::Refusals::passing))]
fn set(alloc: Global, json: &Json) -> Result<Op, RequestFault>
    ensures { Reads result (said verbs.Set json.now) }
{
    let members = fields_in(json);
    let graph = graph_in(alloc, "graph", members)?;
    let kind = text_in(alloc, "type", members)?;
    let id = given_in(alloc, "id", members)?;
    let v = values_in(alloc, "v", members)?;
    Ok(Op::Set { graph, kind, id, v })
}

#[tactic(auto, unfolding(crate::specs::Request::said, type_schema::specs::Refusals::passing))]
fn add(alloc: Global, json: &Json) -> Result<Op, RequestFault>
    ensures { Reads result (said verbs.Add json.now) }
{
    let members = fields_in(json);
    let graph = graph_in(alloc, "graph", members)?;
    let kind = text_in(alloc, "type", members)?;
    let id = given_in(alloc, "id", members)?;
    let attr = text_in(alloc, "attr", members)?;
    let by = number_in("by", members)?;
    Ok(Op::Add {
        graph,
        kind,
        id,
        attr,
        by,
    })
}

#[tactic(auto, unfolding(crate::specs::Request::said, type_schema::specs::Refusals::passing))]
fn drop_vertex(alloc: Global, json: &Json) -> Result<Op, RequestFault>
    ensures { Reads result (said verbs.Drop json.now) }
{
    let members = fields_in(json);
    let graph = graph_in(alloc, "graph", members)?;
    let kind = text_in(alloc, "type", members)?;
    let id = given_in(alloc, "id", members)?;
    Ok(Op::Drop { graph, kind, id })
}

#[tactic(auto, unfolding(crate::specs::Request::said, type_schema::specs::Refusals::passing))]
fn link(alloc: Global, json: &Json) -> Result<Op, RequestFault>
    ensures { Reads result (said verbs.Link json.now) }
{
    let members = fields_in(json);
    let graph = graph_in(alloc, "graph", members)?;
    let kind = text_in(alloc, "type", members)?;
    let from = end_in(alloc, "from", members)?;
    let to = end_in(alloc, "to", members)?;
    let v = values_in(alloc, "v", members)?;
    Ok(Op::Link {
        graph,
        kind,
        from,
        to,
        v,
    })
}

#[tactic(auto, unfolding(crate::specs::Request::said, type_schema::specs::Refusals::passing))]
fn unlink(alloc: Global, json: &Json) -> Result<Op, RequestFault>
    ensures { Reads result (said verbs.Unlink json.now) }
{
    let members = fields_in(json);
    let graph = graph_in(alloc, "graph", members)?;
    let kind = text_in(alloc, "type", members)?;
    let from = end_in(alloc, "from", members)?;
    let to = end_in(alloc, "to", members)?;
    Ok(Op::Unlink {
        graph,
        kind,
        from,
        to,
    })
}

/// What the operation of this name says. That each part is there was looked at before: else it is `Bad(Attrs)`.
#[tactic(auto, unfolding(crate::specs::Request::said, type_schema::specs::Refusals::passing))]
pub fn said(alloc: Global, verb: Verb, json: &Json) -> Result<Op, RequestFault>
    ensures { Reads result (said verb json.now) }
{
    match verb {
        Verb::CreateTenant => Ok(Op::CreateTenant(name_from(alloc, json.as_text())?)),
        Verb::CreateGraph => Ok(Op::CreateGraph(graph_from(
            alloc,
            BadWord::Attrs,
            json.as_text(),
        )?)),
        Verb::DropGraph => Ok(Op::DropGraph(graph_from(alloc, BadWord::Attrs, json.as_text())?)),
        Verb::CreateVertexType => create_vertex_type(alloc, json),
        Verb::CreateEdgeType => create_edge_type(alloc, json),
        Verb::Put => put(alloc, json),
        Verb::Set => set(alloc, json),
        Verb::Add => add(alloc, json),
        Verb::Drop => drop_vertex(alloc, json),
        Verb::Link => link(alloc, json),
        Verb::Unlink => unlink(alloc, json),
    }
}
