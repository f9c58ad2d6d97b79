//! Rows of single laws: characteristics with both forms of friction, cavities, and each kind of node.
use case_model::{Arrival, CavityRule, Friction, NodeState, Point, Through};
use charline::{Reach, arrive_minus, arrive_plus, inner_point};
use junctions::{junction, reservoir};
use pumps::pump_flow;
use valves::{Valve, discharge, inline};
use vessels::{tank, vessel};

// A flow of 0.5 m3/s at 129.834328 s/m2 stands for 64.917164 m; the friction of 100 m of a pipe of
// 1 m with the factor 0.02 takes f dx / (2 g D A^2) Q^2 = 0.041328 m from it. At r = 1 s2/m5 and
// 100 s/m2 a flow of 2 m3/s stands for 200 m and loses 4 m, or has the impedance 100 + 1 * 2 s/m2.
#[test]
fn characteristics_with_friction(rt: HostRuntime) {
    let moving = Point::Good {
        h: 100_000_000,
        qu: -500_000_000,
        qd: 500_000_000,
        v: 0,
    };
    let fast = Point::Good {
        h: 0,
        qu: 2_000_000_000,
        qd: 2_000_000_000,
        v: 0,
    };
    let smooth = Some(Arrival {
        c: 164_875_836,
        b: 129_834_328,
    });
    assert_eq!(rt;
        arrive_plus(Friction::Explicit, 129_834_328, 165_310_234_669, &moving),
        smooth
    );
    assert_eq!(rt;
        arrive_minus(Friction::Explicit, 129_834_328, 165_310_234_669, &moving),
        smooth
    );
    assert_eq!(rt;
        arrive_plus(Friction::Explicit, 100_000_000, 1_000_000_000_000, &fast),
        Some(Arrival {
            c: 196_000_000,
            b: 100_000_000
        })
    );
    assert_eq!(rt;
        arrive_plus(Friction::Linear, 100_000_000, 1_000_000_000_000, &fast),
        Some(Arrival {
            c: 200_000_000,
            b: 102_000_000
        })
    );
    assert_eq!(rt;
        arrive_minus(Friction::Linear, 100_000_000, 1_000_000_000_000, &fast),
        Some(Arrival {
            c: -200_000_000,
            b: 102_000_000
        })
    );
    assert_eq!(rt;
        arrive_plus(
            Friction::Linear,
            100_000_000,
            1_000_000_000_000,
            &Point::Bad
        ),
        None
    );
}

// The flow of the row above against water at rest: explicitly 196 m meet 0 at 98 m and 196 / 200 m3/s;
// linearly 200 m at 102 s/m2 meet 0 at 100 s/m2, at 200 * 100 / 202 m and 200 / 202 m3/s.
#[test]
fn friction_where_two_characteristics_meet(rt: HostRuntime) {
    let rule = CavityRule {
        dt: 100_000,
        psi: 10,
        hv: -10_100_000,
    };
    let left = Point::Good {
        h: 0,
        qu: 2_000_000_000,
        qd: 2_000_000_000,
        v: 0,
    };
    let rest = Point::Good {
        h: 0,
        qu: 0,
        qd: 0,
        v: 0,
    };
    let rows = [
        (Friction::Explicit, 98_000_000, 980_000_000),
        (Friction::Linear, 99_009_901, 990_099_010),
    ];
    for (friction, h, q) in rows {
        let reach = Reach {
            friction,
            b: 100_000_000,
            r: 1_000_000_000_000,
        };
        assert_eq!(rt;
            inner_point(&reach, &rule, &left, &rest, &rest),
            Point::Good {
                h,
                qu: q,
                qd: q,
                v: 0
            }
        );
    }
}

// Both sides at one millionth of a metre below the vapour head, without flow: each side drives
// 1000 / 129834328 = 7.7 nl/s, so the cavity grows by 16 nl/s, 1.6 nl in a step of 0.1 s. In a step of
// 0.01 s that rounds to nothing, and the cavity closes. With an old growth of 34 nl/s and the weight
// 0.5 the mean growth is 25 nl/s, 2.5 nl in a step.
#[test]
fn cavities_in_a_pipe(rt: HostRuntime) {
    let low = Point::Good {
        h: -10_100_001,
        qu: 0,
        qd: 0,
        v: 0,
    };
    let rows = [
        (100_000, 10, 0, (-8, 8, 2)),
        (10_000, 10, 0, (0, 0, 0)),
        (100_000, 5, -34, (-8, 8, 3)),
    ];
    for (dt, psi, own_up, (qu, qd, v)) in rows {
        assert!(rt; dt >= 1 && dt <= 1_000_000);
        assert!(rt; psi >= 5 && psi <= 10);
        assert!(rt; own_up <= 0 && own_up >= -34);
        let rule = CavityRule {
            dt,
            psi,
            hv: -10_100_000,
        };
        let own = Point::Good {
            h: 0,
            qu: own_up,
            qd: 0,
            v: 0,
        };
        let reach = Reach {
            friction: Friction::Explicit,
            b: 129_834_328,
            r: 0,
        };
        assert_eq!(rt;
            inner_point(&reach, &rule, &low, &own, &low),
            Point::Good {
                h: -10_100_000,
                qu,
                qd,
                v
            }
        );
    }
}

// Three pipes of 129.834328 s/m2 at rest at 100 m, and a demand of 0.3 m3/s. By hand: the weight is
// 10^22 / 129834328 = 77021232782134.3, the head 100 m less 3 * 10^24 / (3 * 77021232782134) = 12983433.0
// in 1e-6 m, and each inflow 12983433 * 10^9 / 129834328 = 100000001.5 in 1e-9 m3/s. Sixteen such pipes
// without a demand stay at rest.
#[test]
fn demand_at_a_junction(rt: HostRuntime) {
    let arrivals = [Arrival {
        c: 100_000_000,
        b: 129_834_328,
    }; 3];
    let mut flows = [7; 3];
    let old = NodeState::Good {
        h: 100_000_000,
        v: 0,
        g: 0,
    };
    let new = NodeState::Good {
        h: 87_016_567,
        v: 0,
        g: 0,
    };
    let rule = CavityRule {
        dt: 100_000,
        psi: 10,
        hv: -10_100_000,
    };
    assert_eq!(rt;
        junction(&rule, 300_000_000, &old, &arrivals, &mut flows),
        new
    );
    assert_eq!(rt; flows, [100_000_002; 3]);
    assert_eq!(rt; reservoir(87_016_567, &arrivals, &mut flows), new);
    assert_eq!(rt; flows, [100_000_002; 3]);
    let many = [Arrival {
        c: 100_000_000,
        b: 129_834_328,
    }; 16];
    let mut flows = [7; 16];
    assert_eq!(rt; junction(&rule, 0, &old, &many, &mut flows), old);
    assert_eq!(rt; flows, [0; 16]);
}

// At a dead end 129.834328 m are 1 m3/s. By hand: 129.834328 m below the vapour head a cavity grows by
// 1 m3/s, which is 0.1 m3 in 0.1 s. Then 2 m3/s flow in for 0.1 s: with the weight 1 that takes 0.2 m3,
// so the cavity closes at the head 259.668656 m above the vapour head; with the weight 0.5 the mean of
// 2 and -1 m3/s takes 0.05 m3.
#[test]
fn cavity_at_a_dead_end(rt: HostRuntime) {
    let wall = CavityRule {
        dt: 100_000,
        psi: 10,
        hv: -10_100_000,
    };
    let mean = CavityRule {
        dt: 100_000,
        psi: 5,
        hv: -10_100_000,
    };
    let below = [Arrival {
        c: -139_934_328,
        b: 129_834_328,
    }];
    let above = [Arrival {
        c: 249_568_656,
        b: 129_834_328,
    }];
    let mut flows = [7];
    let rest = NodeState::Good { h: 0, v: 0, g: 0 };
    let open = NodeState::Good {
        h: -10_100_000,
        v: 100_000_000,
        g: 1_000_000_000,
    };
    let closed = NodeState::Good {
        h: 249_568_656,
        v: 0,
        g: 0,
    };
    let kept = NodeState::Good {
        h: -10_100_000,
        v: 50_000_000,
        g: -2_000_000_000,
    };
    assert_eq!(rt; junction(&wall, 0, &rest, &below, &mut flows), open);
    assert_eq!(rt; flows, [-1_000_000_000]);
    assert_eq!(rt; junction(&wall, 0, &open, &above, &mut flows), closed);
    assert_eq!(rt; flows, [0]);
    assert_eq!(rt; junction(&mean, 0, &open, &above, &mut flows), kept);
    assert_eq!(rt; flows, [2_000_000_000]);
    assert_eq!(rt;
        junction(&wall, 0, &NodeState::Bad, &above, &mut flows),
        NodeState::Bad
    );
    assert_eq!(rt; flows, [0]);
}

// An area of 1 m2 over 0.1 s, 20 m arriving at 100 s/m2: the weight is 10^14, so the head is 10 m and
// 10^5 * 10^14 * 10^7 / (2 * 10^22 + 10^19) = 4997.5, and the inflow (2*10^7 - 10004998) * 10.
#[test]
fn tank_fills(rt: HostRuntime) {
    let arrivals = [Arrival {
        c: 20_000_000,
        b: 100_000_000,
    }];
    let mut flows = [7];
    let old = NodeState::Good {
        h: 10_000_000,
        v: 0,
        g: 0,
    };
    let new = NodeState::Good {
        h: 10_004_998,
        v: 0,
        g: 99_950_020,
    };
    assert_eq!(rt; tank(100_000, 1_000_000, &old, &arrivals, &mut flows), new);
    assert_eq!(rt; flows, [99_950_020]);
}

// 1 m3/s for 0.1 s takes 0.1 m3 of 0.6 m3 of gas: 0.5 m3 are left, the first volume of the table, at
// 40 m, which is what arrives. 20e-9 m3/s take 2e-9 m3, and the table ends before that volume.
#[test]
fn vessel_is_pressed(rt: HostRuntime) {
    let gas = [(500_000_000, 40_000_000), (1_000_000_000, 20_000_000)];
    let arrivals = [Arrival {
        c: 40_000_000,
        b: 100_000_000,
    }];
    let mut flows = [7];
    let old = NodeState::Good {
        h: 36_000_000,
        v: 600_000_000,
        g: 1_000_000_000,
    };
    let new = NodeState::Good {
        h: 40_000_000,
        v: 500_000_000,
        g: 0,
    };
    assert_eq!(rt; vessel(100_000, &gas, &old, &arrivals, &mut flows), new);
    let least = NodeState::Good {
        h: 40_000_000,
        v: 500_000_000,
        g: 20,
    };
    assert_eq!(rt;
        vessel(100_000, &gas, &least, &arrivals, &mut flows),
        NodeState::Bad
    );
    assert_eq!(rt; flows, [0]);
}

// 200 m arrive at 100 s/m2, and the valve loses 100 m at 1 m3/s. By hand: half the flow at which both
// lose as much is 10^8 * 10^18 / (2 * 10^8 * 10^9) = 0.5 m3/s, the root of 0.25 + 2 is 1.5, so 1 m3/s
// flow, which lose 100 m on the way. At 0.01 m for 1000 m3/s the product 10^8 * 10^24 is over
// 2 * 10^4 * 10^24.
#[test]
fn valve_at_an_end(rt: HostRuntime) {
    let rule = CavityRule {
        dt: 100_000,
        psi: 10,
        hv: -10_100_000,
    };
    let valve = Valve {
        q0: 1_000_000_000,
        h0: 100_000_000,
        outlet: 0,
    };
    let wide = Valve {
        q0: 1_000_000_000_000,
        h0: 10_000,
        outlet: 0,
    };
    let arrival = Arrival {
        c: 200_000_000,
        b: 100_000_000,
    };
    let rest = NodeState::Good { h: 0, v: 0, g: 0 };
    let open = NodeState::Good {
        h: 100_000_000,
        v: 0,
        g: 0,
    };
    let closed = NodeState::Good {
        h: 200_000_000,
        v: 0,
        g: 0,
    };
    let mut flow = 7;
    assert_eq!(rt;
        discharge(&rule, &valve, 1_000_000, &rest, &arrival, &mut flow),
        open
    );
    assert_eq!(rt; flow, 1_000_000_000);
    assert_eq!(rt;
        discharge(&rule, &valve, 0, &rest, &arrival, &mut flow),
        closed
    );
    assert_eq!(rt; flow, 0);
    assert_eq!(rt;
        discharge(&rule, &wide, 0, &rest, &arrival, &mut flow),
        NodeState::Bad
    );
}

// The valve of a pipe of 129.834328 s/m2 is shut. By hand: 0.268166089 m3/s of pipe flow away from it are
// 34.817163917 m below the vapour head, and grow a cavity by 0.0268166089 m3 in 0.1 s.
#[test]
fn cavity_at_a_shut_valve(rt: HostRuntime) {
    let rule = CavityRule {
        dt: 100_000,
        psi: 10,
        hv: -10_100_000,
    };
    let valve = Valve {
        q0: 500_000_000,
        h0: 20_000_000,
        outlet: 0,
    };
    let arrival = Arrival {
        c: -44_917_164,
        b: 129_834_328,
    };
    let rest = NodeState::Good { h: 0, v: 0, g: 0 };
    let cavity = NodeState::Good {
        h: -10_100_000,
        v: 26_816_609,
        g: 268_166_089,
    };
    let mut flow = 7;
    assert_eq!(rt;
        discharge(&rule, &valve, 0, &rest, &arrival, &mut flow),
        cavity
    );
    assert_eq!(rt; flow, -268_166_089);
}

// 200 m on one side and 0 on the other, each at 50 s/m2, with a valve that loses 100 m at 1 m3/s: that
// flows through it, and 50 m are lost on each side.
#[test]
fn valve_in_a_line(rt: HostRuntime) {
    let valve = Valve {
        q0: 1_000_000_000,
        h0: 100_000_000,
        outlet: 0,
    };
    let wide = Valve {
        q0: 1_000_000_000_000,
        h0: 10_000,
        outlet: 0,
    };
    let one = Arrival {
        c: 200_000_000,
        b: 50_000_000,
    };
    let two = Arrival {
        c: 0,
        b: 50_000_000,
    };
    assert_eq!(rt;
        inline(&valve, 1_000_000, &one, &two),
        Through::Good {
            q: 1_000_000_000,
            h1: 150_000_000,
            h2: 50_000_000
        }
    );
    assert_eq!(rt; inline(&wide, 0, &one, &two), Through::Bad);
}

// A pump that gives 50 m at rest, 40 m at 1 m3/s and 20 m at 2 m3/s, on pipes of 10 s/m2 on each side.
// By hand: 20 m short, at full speed 20 m are left at 1 m3/s of 40 m of rise, all lost in 20 s/m2, so
// the first segment holds. With 100 m more the line of the last segment reaches 0 at 4 m3/s.
#[test]
fn pump_on_its_curve(rt: HostRuntime) {
    let curve = [
        (0, 50_000_000),
        (1_000_000_000, 40_000_000),
        (2_000_000_000, 20_000_000),
    ];
    let low = Arrival {
        c: 30_000_000,
        b: 10_000_000,
    };
    let high = Arrival {
        c: 50_000_000,
        b: 10_000_000,
    };
    let hundred = Arrival {
        c: 100_000_000,
        b: 10_000_000,
    };
    let zero = Arrival {
        c: 0,
        b: 10_000_000,
    };
    assert_eq!(rt;
        pump_flow(&curve, 0, &low, &high),
        Through::Good {
            q: 0,
            h1: 30_000_000,
            h2: 50_000_000
        }
    );
    assert_eq!(rt;
        pump_flow(&curve, 1_000_000, &low, &high),
        Through::Good {
            q: 1_000_000_000,
            h1: 20_000_000,
            h2: 60_000_000
        }
    );
    assert_eq!(rt;
        pump_flow(&curve, 1_000_000, &hundred, &zero),
        Through::Good {
            q: 4_000_000_000,
            h1: 60_000_000,
            h2: 40_000_000
        }
    );
}
