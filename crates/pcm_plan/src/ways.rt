//! The plans of clients, each way: their stages, in their order.

ghost use Rattle.pcm_plan.specs.Plans.{plan_play, plan_record, AreRated, IsPlanOf};

use crate::Plan;
use crate::parts::{depth_to, equaliser_over, push_converting, push_some};
use arrayvec::ArrayVec;
use pcm_feeder::{Spec, Tables};
use pcm_format::Settings;

/// The way of a client's frames into a device, with converters of a quality.
pub fn plan_play(client: &Settings, device: &Settings, quality: u32, tables: &Tables) -> Plan
    requires rates { AreRated client.now device.now }
    // The type of the tables keeps them within their limits.
    ensures { IsPlanOf tables.now (plan_play tables.now quality client.now device.now) result }
{
    let mut stages = ArrayVec::new();
    let channels = device.layout.channels();
    push_converting(&mut stages, client, device, quality, tables.list());
    push_some(&mut stages, equaliser_over(tables, channels));
    stages.push(Spec::Volume {
        layout: device.layout,
    });
    push_some(&mut stages, depth_to(device.format.bits(), channels));
    Plan::of(client.layout, device.layout, stages)
}

/// The way of a device's frames to a client, with converters of a quality.
pub fn plan_record(client: &Settings, device: &Settings, quality: u32, tables: &Tables) -> Plan
    requires rates { AreRated client.now device.now }
    ensures { IsPlanOf tables.now (plan_record tables.now quality client.now device.now) result }
{
    let mut stages = ArrayVec::new();
    push_converting(&mut stages, device, client, quality, tables.list());
    let depth = depth_to(client.format.bits(), client.layout.channels());
    push_some(&mut stages, depth);
    Plan::of(device.layout, client.layout, stages)
}
