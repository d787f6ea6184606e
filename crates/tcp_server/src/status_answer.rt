//! The answers to requests for the status.
use crate::status_board::{Health, StatusBoard};
use event_loop::Hub;
use server_counts::{
    KeptStandby, Status, StatusPage, StatusRequest, asked_by, first_line, has_whole_head,
    kept_text, metrics_text, response,
};
use std::alloc::AllocError;
use std::sync::Wait;
use std::time::Clock;

const TEXT: &str = "text/plain; charset=utf-8";

const METRICS: &str = "text/plain; version=0.0.4";

const JSON: &str = "application/json";

/// The bytes of the response to a request with this head.
pub fn answer_to<R: AllocGlobal + Clock + Wait>(
    rt: &R,
    hub: &Hub,
    board: &StatusBoard<'_>,
    head: &[u8],
) -> Result<String, AllocError> {
    let alloc = rt.alloc();
    let asked = if has_whole_head(head) {
        asked_by(first_line(head))
    } else {
        StatusRequest::NoRequest
    };
    match asked {
        StatusRequest::Page { page, is_head } => page_response(rt, hub, board, page, is_head),
        StatusRequest::NoPage { is_head } => response(
            alloc,
            Status::NotFound,
            TEXT,
            "there is /healthz, /kept and /metrics\n",
            is_head,
        ),
        StatusRequest::NoMethod => response(
            alloc,
            Status::NotAllowed,
            TEXT,
            "GET and HEAD are allowed\n",
            false,
        ),
        StatusRequest::NoRequest => {
            response(
                alloc,
                Status::BadRequest,
                TEXT,
                "this is no request\n",
                false,
            )
        }
    }
}

// The response with a page.
fn page_response<R: AllocGlobal + Clock + Wait>(
    rt: &R,
    hub: &Hub,
    board: &StatusBoard<'_>,
    page: StatusPage,
    is_head: bool,
) -> Result<String, AllocError> {
    let alloc = rt.alloc();
    match page {
        StatusPage::Health => {
            let health = board.health(hub);
            let status = if health == Health::Serves {
                Status::Ok
            } else {
                Status::Unavailable
            };
            response(alloc, status, TEXT, health.text(), is_head)
        }
        StatusPage::Kept => {
            let text = kept_of(rt, board)?;
            response(alloc, Status::Ok, JSON, text.as_str(), is_head)
        }
        StatusPage::Metrics => {
            let numbers = board.numbers(rt, hub)?;
            let text = metrics_text(alloc, &numbers)?;
            response(alloc, Status::Ok, METRICS, text.as_str(), is_head)
        }
    }
}

// The number of machines that keep the answers given now, and the progress of the standby.
fn kept_of<R: AllocGlobal + Wait>(rt: &R, board: &StatusBoard<'_>) -> Result<String, AllocError> {
    let alloc = rt.alloc();
    let Some(keeper) = board.keeper() else {
        return kept_text(alloc, 0, None);
    };
    let machines = keeper.machines(rt);
    match (keeper.confirm(), keeper.standby_numbers(rt)) {
        (Some(confirm), Some((numbers, has_all))) => {
            let word = format!(in alloc; "{confirm}")?;
            let standby = KeptStandby {
                confirm: word.as_str(),
                has_all,
                lag: numbers.lag_notes,
            };
            kept_text(alloc, machines, Some(standby))
        }
        _ => kept_text(alloc, machines, None),
    }
}
