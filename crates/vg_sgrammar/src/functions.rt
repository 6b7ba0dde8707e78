//! The specifications of the six functions in examples/functions, without the blanks that lines begin with, for the tests.

pub const TEXTS: [&str; 6] = [
    "ports 5;\n\
config mask : u16 0 .. 3;\n\
config capacity : u32 1 .. 65536;\n\
config span : u64 1 .. 1000000000000;\n\
premise (mask & (mask + 1)) == 0;\n\
struct flow { src : u32; dst : u32; sport : u16; dport : u16; proto : u8; }\n\
struct place { at_port : u16; }\n\
link flows, ages, keys : flow, capacity;\n\
vector places : place, capacity;\n\
rule places : cell.at_port <= 4;\n\
step {\n\
  expire flows before now - span;\n\
  if port != 0 { send 0; }\n\
  if length < 42 || frame.be16[12] != 2048 || frame.u8[14] != 69 { drop; }\n\
  let p = frame.u8[23];\n\
  if (frame.be16[20] & 16383) != 0 || p != 17 && (p != 6 || length < 54) { drop; }\n\
  let s = frame.be32[26];\n\
  let d = frame.be32[30];\n\
  let sp = frame.be16[34];\n\
  let dp = frame.be16[36];\n\
  find flows {s, d, sp, dp, p} as i { touch flows i; send places[i].at_port; }\n\
  add flows {s, d, sp, dp, p} as i {\n\
    places[i].at_port = 1 + ((s ^ sp) & mask);\n\
    send places[i].at_port;\n\
  }\n\
  drop;\n\
}\n\
",
    "ports 4;\n\
config capacity : u32 1 .. 65536;\n\
config span : u64 1 .. 1000000000000;\n\
struct mac { addr : b6; }\n\
struct place { at_port : u16; }\n\
link macs, ages, keys : mac, capacity;\n\
vector places : place, capacity;\n\
rule places : cell.at_port < 4;\n\
step {\n\
  expire macs before now - span;\n\
  if length < 14 { drop; }\n\
  find macs {frame.be48[6]} as i { touch macs i; places[i].at_port = port; }\n\
  else { add macs {frame.be48[6]} as i { places[i].at_port = port; } }\n\
  find macs {frame.be48[0]} as j {\n\
    if places[j].at_port == port { drop; }\n\
    send places[j].at_port;\n\
  }\n\
  flood;\n\
}\n\
",
    "ports 2;\n\
config capacity : u32 1 .. 65536;\n\
config span : u64 1 .. 1000000000000;\n\
struct flow { src : u32; dst : u32; sport : u16; dport : u16; proto : u8; }\n\
link flows, ages, keys : flow, capacity;\n\
step {\n\
  expire flows before now - span;\n\
  if length < 42 || frame.be16[12] != 2048 || frame.u8[14] != 69 { drop; }\n\
  let p = frame.u8[23];\n\
  if (frame.be16[20] & 16383) != 0 || p != 17 && (p != 6 || length < 54) { drop; }\n\
  let s = frame.be32[26];\n\
  let d = frame.be32[30];\n\
  let sp = frame.be16[34];\n\
  let dp = frame.be16[36];\n\
  if port == 0 {\n\
    find flows {s, d, sp, dp, p} as i { touch flows i; }\n\
    else { add flows {s, d, sp, dp, p} as i { } else { drop; } }\n\
    send 1;\n\
  }\n\
  find flows {d, s, dp, sp, p} as i { touch flows i; send 0; }\n\
  drop;\n\
}\n\
",
    "ports 2;\n\
config external_ip : u32 0 .. 4294967295;\n\
config start_port : u16 1 .. 65535;\n\
config capacity : u32 1 .. 65535;\n\
config span : u64 1 .. 1000000000000;\n\
premise start_port + capacity <= 65536;\n\
struct flow { src : u32; dst : u32; sport : u16; dport : u16; proto : u8; }\n\
link flows, ages, keys : flow, capacity;\n\
define fold(s) = (s & 65535) + (s >> 16);\n\
define adj(c, m, n) = 65535 - fold(fold((65535 - c) + (65535 - m) + n));\n\
define adj2(c, m, n) = adj(adj(c, m >> 16, n >> 16), m & 65535, n & 65535);\n\
define full(c) = c == 0 ? 65535 : c;\n\
define l4(c, a, b, m, n) = adj(adj2(c, a, b), m, n);\n\
define udp(c, a, b, m, n) = c == 0 ? 0 : full(l4(c, a, b, m, n));\n\
step {\n\
  expire flows before now - span;\n\
  if length < 42 || frame.be16[12] != 2048 || frame.u8[14] != 69 { drop; }\n\
  let p = frame.u8[23];\n\
  if (frame.be16[20] & 16383) != 0 || p != 17 && (p != 6 || length < 54) { drop; }\n\
  let s = frame.be32[26];\n\
  let d = frame.be32[30];\n\
  let sp = frame.be16[34];\n\
  let dp = frame.be16[36];\n\
  if port == 0 {\n\
    find flows {s, d, sp, dp, p} as i { touch flows i; }\n\
    else { add flows {s, d, sp, dp, p} as i { } else { drop; } }\n\
    find flows {s, d, sp, dp, p} as j {\n\
      let e = external_ip;\n\
      let q = start_port + j;\n\
      frame.be16[24] = adj2(frame.be16[24], s, e);\n\
      if p == 17 { frame.be16[40] = udp(frame.be16[40], s, e, sp, q); }\n\
      else { frame.be16[50] = l4(frame.be16[50], s, e, sp, q); }\n\
      frame.be32[26] = e;\n\
      frame.be16[34] = q;\n\
      send 1;\n\
    }\n\
    drop;\n\
  }\n\
  if d != external_ip || dp < start_port || dp >= start_port + capacity { drop; }\n\
  let k = dp - start_port;\n\
  if !has(flows, k) { drop; }\n\
  if keys[k].dst != s || keys[k].dport != sp || keys[k].proto != p { drop; }\n\
  touch flows k;\n\
  let a = keys[k].src;\n\
  let b = keys[k].sport;\n\
  frame.be16[24] = adj2(frame.be16[24], d, a);\n\
  if p == 17 { frame.be16[40] = udp(frame.be16[40], d, a, dp, b); }\n\
  else { frame.be16[50] = l4(frame.be16[50], d, a, dp, b); }\n\
  frame.be32[30] = a;\n\
  frame.be16[36] = b;\n\
  send 0;\n\
}\n\
",
    "ports 2;\n\
config shift : u8 1 .. 40;\n\
config burst : u32 1 .. 4294967295;\n\
config capacity : u32 1 .. 65536;\n\
config span : u64 1 .. 1000000000000;\n\
struct host { ip : u32; }\n\
struct bucket { left : u64; time : u64; }\n\
link hosts, ages, keys : host, capacity;\n\
vector buckets : bucket, capacity;\n\
rule buckets : cell.left <= burst;\n\
define lesser(a, b) = a < b ? a : b;\n\
step {\n\
  expire hosts before now - span;\n\
  if port == 0 { send 1; }\n\
  if length < 34 || frame.be16[12] != 2048 { drop; }\n\
  find hosts {frame.be32[30]} as i {\n\
    touch hosts i;\n\
    let t = lesser(burst, buckets[i].left + ((now - buckets[i].time) >> shift));\n\
    buckets[i].time = now;\n\
    if t >= length { buckets[i].left = t - length; send 0; }\n\
    buckets[i].left = t;\n\
    drop;\n\
  }\n\
  add hosts {frame.be32[30]} as i {\n\
    buckets[i].time = now;\n\
    if burst >= length { buckets[i].left = burst - length; send 0; }\n\
    buckets[i].left = burst;\n\
    drop;\n\
  }\n\
  drop;\n\
}\n\
",
    "ports 4;\n\
prefix routes : 0 .. 3;\n\
step {\n\
  if length < 34 || frame.be16[12] != 2048 { drop; }\n\
  lookup routes frame.be32[30] as to { send to; }\n\
  drop;\n\
}\n\
",
];
