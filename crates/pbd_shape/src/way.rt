// The way of a place through shapes, one kind after another.
ghost use Rattle.std.specs.Prelude.{◌≡◌, map, unsigned_abs, option_map, option_and_then, IfSome};
ghost use Rattle.std.specs.List.{All};
ghost use Rattle.pbd_num.specs.Vectors.{Within};
ghost use Rattle.pbd_world.specs.Shapes.{past, way_through};
ghost use Rattle.pbd_shape.specs.Valid.{IsLimit};
ghost use Rattle.pbd_shape.specs.Way.{way_of};

use crate::touch::Touch;
use pbd_num::{Vec3, within};

/// Where a place has come to, and whether a shape touched it on its way.
#[derive(Clone, Copy)]
pub(crate) struct Pushed {
    pub(crate) at: Vec3,
    pub(crate) touched: bool,
}

// Past one shape, which gives the place to which it pushes, if it touches. Nothing where that is outside the limit.
#[inline(always)]
fn past(limit: i64, way: Pushed, to: Option<Vec3>) -> Option<Pushed>
    requires limit { IsLimit limit }
    requires way { Within (unsigned_abs limit) way.at }
    ensures value { option_map way_of result ≡ past limit (way_of way) to }
    ensures within { IfSome result (λ next. Within (unsigned_abs limit) next.at) }
{
    match to {
        None => Some(way),
        Some(at) => {
            if within(at, limit) {
                Some(Pushed { at, touched: true })
            } else {
                None
            }
        }
    }
}

// The way on through shapes of one kind in order, and `None` where it leaves the limit.
#[inline(always)]
fn past_all<S: Touch>(limit: i64, shapes: &[S], way: Pushed) -> Option<Pushed>
    requires limit { IsLimit limit }
    requires shapes { All S.is_in_range shapes.now }
    requires way { Within (unsigned_abs limit) way.at }
    ensures value { option_map way_of result ≡ way_through limit (map S.shape shapes.now) (way_of way) }
    ensures within { IfSome result (λ next. Within (unsigned_abs limit) next.at) }
{
    let mut now = way;
    for shape in shapes {
        let Some(next) = past(limit, now, shape.push(now.at)) else {
            return None;
        };
        now = next;
    }
    Some(now)
}

/// The way on through the shapes of one more kind in order, from where it has come to so far. `None` where it leaves the limit, or
/// has left it.
#[inline(always)]
pub(crate) fn then_past<S: Touch>(limit: i64, way: Option<Pushed>, shapes: &[S]) -> Option<Pushed>
    requires limit { IsLimit limit }
    requires shapes { All S.is_in_range shapes.now }
    requires way { IfSome way (λ on. Within (unsigned_abs limit) on.at) }
    ensures value { option_map way_of result ≡ option_and_then (way_through limit (map S.shape shapes.now)) (option_map way_of way) }
    ensures within { IfSome result (λ next. Within (unsigned_abs limit) next.at) }
{
    match way {
        None => None,
        Some(way) => past_all(limit, shapes, way),
    }
}
