//! The jobs and the nodes that queries list, as JSON values.

ghost use Rattle.std.specs.Prelude.{◌≡◌, map, All, IsUtf8, IfOk};
ghost use Rattle.serde_json.specs.Data.{Data, array};
ghost use Rattle.serde_json.specs.View.{view, items_of, members_view};
ghost use Rattle.monitor_model.specs.Replies as model;
ghost use Rattle.qmp_reply.specs.Sent.{NodeIsText};

use crate::words::{span_text, text};
use core_events::{BitmapInfo, BitmapInfos, JobInfo, JobInfos, Memory, NodeInfo, NodeInfos};
use serde_json::{Map, Value, json, put};
use std::alloc::Global;

/// What is listed: whether its names are UTF-8, and what JSON it is then.
trait Listed {
    ghost is_text: { Self → Type 0 };

    ghost shown: { Self → Data };

    fn value(&self, alloc: Global) -> Result<Value, Memory>
        ensures { IfOk result (λ v. is_text self.now → view v ≡ shown self.now) };
}

/// A list of each of them, in order.
fn listing<T: Listed>(alloc: Global, listed: &Vec<T>) -> Result<Value, Memory>
    ensures { IfOk result (λ v. All T.is_text listed.now.items → view v ≡ array (items_of (map T.shown listed.now.items))) }
{
    let mut values = Vec::with_capacity(alloc, listed.len())?;
    for one in listed {
        values.push(one.value(alloc)?)?;
    }
    Ok(Value::Array(values))
}

/// The jobs, in order.
pub(crate) fn job_listing(alloc: Global, jobs: &JobInfos) -> Result<Value, Memory>
    ensures { IfOk result (λ v. All (λ j. IsUtf8 j.id) jobs.now → view v ≡ array (model.job_items jobs.now)) }
{
    listing(alloc, &jobs.items)
}

/// The bitmaps, in order.
fn bitmap_listing(alloc: Global, bitmaps: &BitmapInfos) -> Result<Value, Memory>
    ensures { IfOk result (λ v. All (λ b. IsUtf8 b.name) bitmaps.now → view v ≡ array (model.bitmap_items bitmaps.now)) }
{
    listing(alloc, &bitmaps.items)
}

/// The nodes, in order.
pub(crate) fn node_listing(alloc: Global, nodes: &NodeInfos) -> Result<Value, Memory>
    ensures { IfOk result (λ v. All NodeIsText nodes.now → view v ≡ array (model.node_items nodes.now)) }
{
    listing(alloc, &nodes.items)
}

impl Listed for JobInfo {
    ghost is_text = { λ j. IsUtf8 j.id };

    ghost shown = { model.job_data };

    fn value(&self, alloc: Global) -> Result<Value, Memory> {
        let id = text(alloc, &self.id)?;
        json!(in alloc; {
            "current-progress": self.current,
            "id": id,
            "status": "running",
            "total-progress": self.total,
            "type": "backup"
        })
    }
}

impl Listed for BitmapInfo {
    ghost is_text = { λ b. IsUtf8 b.name };

    ghost shown = { model.bitmap_data };

    fn value(&self, alloc: Global) -> Result<Value, Memory> {
        let name = text(alloc, &self.name)?;
        let span = span_text(alloc, self.span)?;
        json!(in alloc; {
            "busy": self.busy,
            "count": self.count,
            "granularity": self.granularity,
            "inconsistent": self.inconsistent,
            "name": name,
            "persistent": self.persistent,
            "recording": self.recording,
            "x-span": span
        })
    }
}

impl Listed for NodeInfo {
    ghost is_text = { NodeIsText };

    ghost shown = { model.node_data };

    fn value(&self, alloc: Global) -> Result<Value, Memory> {
        let mut members = node_members(alloc, self)?;
        let Some(bitmaps) = &self.bitmaps else {
            return Ok(Value::Object(members));
        };
        let listed = bitmap_listing(alloc, bitmaps)?;
        put(&mut members, alloc, "dirty-bitmaps", listed)?;
        Ok(Value::Object(members))
    }
}

/// The members of a node that views have as well.
fn node_members(alloc: Global, node: &NodeInfo) -> Result<Map<String, Value>, Memory>
    ensures { IfOk result (λ m. IsUtf8 node.now.name → members_view m.entries ≡ model.node_members node.now) }
{
    let mut members = Map::new(alloc);
    let image = json!(in alloc; {"virtual-size": node.size})?;
    put(&mut members, alloc, "image", image)?;
    let name = Value::String(text(alloc, &node.name)?);
    put(&mut members, alloc, "node-name", name)?;
    let Some(event) = node.broken_at else {
        return Ok(members);
    };
    put(&mut members, alloc, "x-broken-at", Value::from(event))?;
    Ok(members)
}
