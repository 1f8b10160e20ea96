//! The elements where the packets of each device enter and leave.
ghost use Rattle.std.specs.Prelude.{◌≡◌, option_map};
ghost use Rattle.click_engine.specs.Devices.{device_of};

use crate::device_names::DeviceNames;
use click_classes::State;
use std::alloc::{AllocError, Global};
use std::marker::Model;

/// The direction in which packets pass at a device.
#[derive(Clone, Copy, Debug, PartialEq, Eq)]
pub enum PacketDirection {
    /// Packets enter, at a FromDevice.
    In,
    /// Packets leave, at a ToDevice.
    Out,
}

/// Devices without repetition, each with the index of its element.
#[derive(Drop)]
pub struct Devices {
    names: DeviceNames,
    places: Vec<usize>,
}

impl Model for Devices {
    ghost use Rattle.std.specs.Prelude.{◌≡◌, List, length};
    ghost use Rattle.click_engine.specs.Devices.{Device};
    ghost use Rattle.click_engine.specs.kept.Tables.{devices};

    ghost Value = { List Device };

    ghost view = { λ d. devices d.names d.places.items };

    ghost invariant = { λ d. length d.names ≡ length d.places.items };
}

/// Returns the device that a state names: that of a FromDevice or of a ToDevice, by the direction.
fn device_of(direction: PacketDirection, state: &State) -> Option<&[u8]>
    ensures { option_map (λ name. name.now) result ≡ device_of direction state.now }
{
    match direction {
        PacketDirection::In => match state {
            State::FromDevice { device } => Some(device.as_slice()),
            _ => None,
        },
        PacketDirection::Out => match state {
            State::ToDevice { device } => Some(device.as_slice()),
            _ => None,
        },
    }
}

impl Devices {
    ghost use Rattle.std.specs.Prelude.{◌≡◌, IfOk, IfSome, Some};
    ghost use Rattle.click_engine.specs.Devices.{devices_from, element_with};

    /// Collects the devices of these states, each with the first element in flat order that names
    /// it.
    pub(crate) fn of(
        alloc: Global,
        direction: PacketDirection,
        states: &[State],
    ) -> Result<Devices, AllocError>
        ensures { IfOk result (λ ds. ds ≡ devices_from direction 0 states.now) }
    {
        let mut names = DeviceNames::new(alloc);
        let mut places = Vec::new(alloc);
        for at in 0..states.len() {
            let Some(name) = device_of(direction, &states[at]) else {
                continue;
            };
            if names.has(name) {
                continue;
            }
            places.push(at)?;
            names.add(alloc, name)?;
        }
        Ok(Devices { names, places })
    }

    /// Returns the index of the device's element if the device is one of the first `MAX_UNINDEXED`.
    #[inline(always)]
    pub(crate) fn find_unindexed(&self, device: &[u8]) -> Option<usize>
        ensures { IfSome result (λ at. element_with self.now device.now ≡ Some at) }
    {
        let at = self.names.find_unindexed(device)?;
        Some(self.places[at])
    }

    /// Returns the index of the device's element.
    pub(crate) fn element(&self, device: &[u8]) -> Option<usize>
        ensures { result ≡ element_with self.now device.now }
    {
        let at = self.names.place(device)?;
        Some(self.places[at])
    }
}
