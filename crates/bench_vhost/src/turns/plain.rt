//! What a turn can't do without: the bytes, a fetch, and a publication.
use crate::turns::ring::Ring;
use anyhow::{Context, Result, bail, ensure};
use guest_mem::Memory;
use std::alloc::Global;
use vhost_queue::Vq;
use vring_walk::{Fetched, Segments, fetch, is_good};

/// Copies the bytes of 256 chains out of the memory, or into it.
pub fn copy(ring: &mut Ring) -> Result<()> {
    let packets = ring.packets;
    let len = packets.part() as usize;
    let mut room = [0u8; 2048];
    ensure!(len <= 2048, "a part of more than 2,048 bytes");
    let bytes = &mut room[..len];
    for chain in 0..256 {
        for part in 0..packets.parts {
            let addr = packets.addr(chain, part);
            let done = if packets.rx {
                ring.mem.write(addr, bytes)
            } else {
                ring.mem.read(addr, bytes)
            };
            done.ok().context("outside of the memory")?;
        }
    }
    Ok(())
}

// Takes the chain at the next position, and publishes it.
fn serve(vq: &mut Vq, mem: &mut Memory, room: &mut Segments) -> Result<()> {
    let layout = vq.layout();
    ensure!(is_good(mem, &layout), "the layout is not good");
    room.clear();
    let Fetched::Chain { head } = fetch(mem, &layout, vq.position(), room) else {
        bail!("no chain");
    };
    ensure!(vq.gathered() < 1024 && vq.room() > 0, "no room");
    vq.served();
    vq.done(head, 0);
    vq.publish(mem);
    Ok(())
}

/// Fetches and publishes 256 chains, one after another.
pub fn fetch_and_publish(alloc: Global, ring: &mut Ring) -> Result<()> {
    let mut room = Segments::new(alloc)?;
    ring.vq.ready_turn()?;
    for _ in 0..256 {
        serve(&mut ring.vq, &mut ring.mem, &mut room)?;
    }
    Ok(())
}
