//! Worked rows of credit, and of the quotas of hosts.

pub const ROWS: &str = r#"
~ call scheduler {"authenticator":"$","rpc_seqno":$,"host_info":{"host_cpid":"$","p_fpops":1000,"m_nbytes":8000,"d_free":9000},"platform_name":"linux"$}
~ units import/workunits/$ "name,app,min_quorum,target_nresults,max_error_results,max_total_results,max_success_results,delay_bound,rsc_fpops_est,rsc_memory_bound,rsc_disk_bound,credit\n$\n"

= errors lower the quota, a valid result doubles it, and a new day begins anew
# to two, and to one at the least; then one more error comes with a valid result: one at the least, and twice that
> 1970-01-01T00:00:00Z units u3 w1,dock,2,2,3,5,4,7200,3600000,1000,1000,5000\nw2,dock,2,2,3,5,4,7200,3600000,1000,1000,5000\nw3,dock,2,2,3,5,4,7200,3600000,1000,1000,5000\nw4,dock,2,2,3,5,4,7200,3600000,1000,1000,5000\nw5,dock,1,2,3,5,4,7200,3600000,1000,1000,5000\nw6,dock,1,2,3,5,4,7200,3600000,1000,1000,5000\nw7,dock,2,2,3,5,4,7200,3600000,1000,1000,5000\nw8,dock,2,2,3,5,4,7200,3600000,1000,1000,5000
< 200 {"batch":"u3","kind":"workunits","rows":8}
> 1970-01-01T00:16:40Z call k1 1 c1 ,"work_req_seconds":7200
< 200 {"end_word":"enough","host_total_credit":0,"hostid":1,"request_delay":60,"result_abort":[],"result_ack":[],"results":[{"app_name":"dock","estimate":3600,"name":"w1_0","platform":"linux","report_deadline":8200,"resent":false,"version_num":102,"wu_name":"w1"},{"app_name":"dock","estimate":3600,"name":"w2_0","platform":"linux","report_deadline":8200,"resent":false,"version_num":102,"wu_name":"w2"}],"rpc_seqno":1,"user_name":"Ann","user_total_credit":0}
> 1970-01-01T00:18:20Z call k1 2 c1 ,"work_req_seconds":7200,"results":[{"name":"w1_0","exit_status":1},{"name":"w2_0","exit_status":1}]
< 200 {"end_word":"daily_quota","host_total_credit":0,"hostid":1,"request_delay":60,"result_abort":[],"result_ack":["w1_0","w2_0"],"results":[],"rpc_seqno":2,"user_name":"Ann","user_total_credit":0}
> 1970-01-02T00:00:00Z call k1 3 c1 ,"work_req_seconds":7200
< 200 {"end_word":"enough","host_total_credit":0,"hostid":1,"request_delay":60,"result_abort":[],"result_ack":[],"results":[{"app_name":"dock","estimate":3600,"name":"w3_0","platform":"linux","report_deadline":93600,"resent":false,"version_num":102,"wu_name":"w3"},{"app_name":"dock","estimate":3600,"name":"w4_0","platform":"linux","report_deadline":93600,"resent":false,"version_num":102,"wu_name":"w4"}],"rpc_seqno":3,"user_name":"Ann","user_total_credit":0}
> 1970-01-03T00:00:00Z call k1 4 c1 ,"work_req_seconds":7200,"results":[{"name":"w3_0","exit_status":1},{"name":"w4_0","exit_status":1}]
< 200 {"end_word":"daily_quota","host_total_credit":0,"hostid":1,"request_delay":60,"result_abort":[],"result_ack":["w3_0","w4_0"],"results":[{"app_name":"dock","estimate":3600,"name":"w5_0","platform":"linux","report_deadline":180000,"resent":false,"version_num":102,"wu_name":"w5"}],"rpc_seqno":4,"user_name":"Ann","user_total_credit":0}
> 1970-01-04T00:00:00Z call k1 5 c1 ,"work_req_seconds":3600
< 200 {"end_word":"enough","host_total_credit":0,"hostid":1,"request_delay":60,"result_abort":[],"result_ack":[],"results":[{"app_name":"dock","estimate":3600,"name":"w6_0","platform":"linux","report_deadline":266400,"resent":false,"version_num":102,"wu_name":"w6"}],"rpc_seqno":5,"user_name":"Ann","user_total_credit":0}
> 1970-01-05T00:00:00Z call k1 6 c1 ,"work_req_seconds":7200,"results":[{"name":"w5_0","exit_status":0,"output":"x"},{"name":"w6_0","exit_status":1}]
< 200 {"end_word":"enough","host_total_credit":5000,"hostid":1,"request_delay":60,"result_abort":[],"result_ack":["w5_0","w6_0"],"results":[{"app_name":"dock","estimate":3600,"name":"w7_0","platform":"linux","report_deadline":352800,"resent":false,"version_num":102,"wu_name":"w7"},{"app_name":"dock","estimate":3600,"name":"w8_0","platform":"linux","report_deadline":352800,"resent":false,"version_num":102,"wu_name":"w8"}],"rpc_seqno":6,"user_name":"Ann","user_total_credit":5000}
> 1970-01-05T00:00:01Z call k1 7 c1 ,"work_req_seconds":3600
< 200 {"end_word":"daily_quota","host_total_credit":5000,"hostid":1,"request_delay":60,"result_abort":[],"result_ack":[],"results":[],"rpc_seqno":7,"user_name":"Ann","user_total_credit":5000}

= late jobs lower the quota, and dropped ones do not
> 1970-01-01T00:00:00Z units u3 w1,dock,2,2,3,5,4,7200,3600000,1000,1000,5000\nw2,dock,2,2,3,5,4,7200,3600000,1000,1000,5000\nw3,dock,2,2,3,5,4,7200,3600000,1000,1000,5000
< 200 {"batch":"u3","kind":"workunits","rows":3}
> 1970-01-01T00:16:40Z call k1 1 c1 ,"work_req_seconds":7200
< 200 {"end_word":"enough","host_total_credit":0,"hostid":1,"request_delay":60,"result_abort":[],"result_ack":[],"results":[{"app_name":"dock","estimate":3600,"name":"w1_0","platform":"linux","report_deadline":8200,"resent":false,"version_num":102,"wu_name":"w1"},{"app_name":"dock","estimate":3600,"name":"w2_0","platform":"linux","report_deadline":8200,"resent":false,"version_num":102,"wu_name":"w2"}],"rpc_seqno":1,"user_name":"Ann","user_total_credit":0}
> 1970-01-01T00:16:40Z call k2 1 c2 ,"work_req_seconds":7200
< 200 {"end_word":"enough","host_total_credit":0,"hostid":2,"request_delay":60,"result_abort":[],"result_ack":[],"results":[{"app_name":"dock","estimate":3600,"name":"w1_1","platform":"linux","report_deadline":8200,"resent":false,"version_num":102,"wu_name":"w1"},{"app_name":"dock","estimate":3600,"name":"w2_1","platform":"linux","report_deadline":8200,"resent":false,"version_num":102,"wu_name":"w2"}],"rpc_seqno":1,"user_name":"Bob","user_total_credit":0}
> 1970-01-01T02:13:20Z scheduler {"authenticator":"k2","rpc_seqno":2,"host_info":{"host_cpid":"c2","p_fpops":499,"m_nbytes":8000,"d_free":9000},"platform_name":"linux","other_results":[]}
< 200 {"end_word":"enough","host_total_credit":0,"hostid":2,"request_delay":60,"result_abort":[],"result_ack":[],"results":[],"rpc_seqno":2,"user_name":"Bob","user_total_credit":0}
> 1970-01-01T02:16:41Z tick
< 200 {"lapsed":2}
> 1970-01-01T02:30:00Z call k1 2 c1 ,"work_req_seconds":3600
< 200 {"end_word":"daily_quota","host_total_credit":0,"hostid":1,"request_delay":60,"result_abort":[],"result_ack":[],"results":[],"rpc_seqno":2,"user_name":"Ann","user_total_credit":0}
> 1970-01-01T02:30:00Z call k2 3 c2 ,"work_req_seconds":3600
< 200 {"end_word":"enough","host_total_credit":0,"hostid":2,"request_delay":60,"result_abort":[],"result_ack":[],"results":[{"app_name":"dock","estimate":3600,"name":"w3_0","platform":"linux","report_deadline":16200,"resent":false,"version_num":102,"wu_name":"w3"}],"rpc_seqno":3,"user_name":"Bob","user_total_credit":0}

= a report that disagrees behind the quorum has no credit and takes none
# which lowers the quota to three
> 1970-01-01T00:00:00Z units u3 d1,dock,2,3,3,5,4,7200,3600000,1000,1000,5000\nw1,dock,2,2,3,5,4,7200,3600000,1000,1000,5000\nw2,dock,2,2,3,5,4,7200,3600000,1000,1000,5000
< 200 {"batch":"u3","kind":"workunits","rows":3}
> 1970-01-01T00:16:40Z call k1 1 c1 ,"work_req_seconds":3600
< 200 {"end_word":"enough","host_total_credit":0,"hostid":1,"request_delay":60,"result_abort":[],"result_ack":[],"results":[{"app_name":"dock","estimate":3600,"name":"d1_0","platform":"linux","report_deadline":8200,"resent":false,"version_num":102,"wu_name":"d1"}],"rpc_seqno":1,"user_name":"Ann","user_total_credit":0}
> 1970-01-01T00:16:40Z call k2 1 c2 ,"work_req_seconds":3600
< 200 {"end_word":"enough","host_total_credit":0,"hostid":2,"request_delay":60,"result_abort":[],"result_ack":[],"results":[{"app_name":"dock","estimate":3600,"name":"d1_1","platform":"linux","report_deadline":8200,"resent":false,"version_num":102,"wu_name":"d1"}],"rpc_seqno":1,"user_name":"Bob","user_total_credit":0}
> 1970-01-01T00:16:40Z call k3 1 c3 ,"work_req_seconds":3600
< 200 {"end_word":"enough","host_total_credit":0,"hostid":3,"request_delay":60,"result_abort":[],"result_ack":[],"results":[{"app_name":"dock","estimate":3600,"name":"d1_2","platform":"linux","report_deadline":8200,"resent":false,"version_num":102,"wu_name":"d1"}],"rpc_seqno":1,"user_name":"Cid","user_total_credit":0}
> 1970-01-01T00:33:20Z call k1 2 c1 ,"results":[{"name":"d1_0","exit_status":0,"output":"ok"}]
< 200 {"end_word":"enough","host_total_credit":0,"hostid":1,"request_delay":60,"result_abort":[],"result_ack":["d1_0"],"results":[],"rpc_seqno":2,"user_name":"Ann","user_total_credit":0}
> 1970-01-01T00:33:20Z call k2 2 c2 ,"results":[{"name":"d1_1","exit_status":0,"output":"ok"}]
< 200 {"end_word":"enough","host_total_credit":5000,"hostid":2,"request_delay":60,"result_abort":[],"result_ack":["d1_1"],"results":[],"rpc_seqno":2,"user_name":"Bob","user_total_credit":5000}
> 1970-01-01T00:33:20Z call k3 2 c3 ,"results":[{"name":"d1_2","exit_status":0,"output":"no"}]
< 200 {"end_word":"enough","host_total_credit":0,"hostid":3,"request_delay":60,"result_abort":[],"result_ack":["d1_2"],"results":[],"rpc_seqno":2,"user_name":"Cid","user_total_credit":0}
> 1970-01-01T00:16:40Z call k3 3 c3 ,"work_req_seconds":7200
< 200 {"end_word":"enough","host_total_credit":0,"hostid":3,"request_delay":60,"result_abort":[],"result_ack":[],"results":[{"app_name":"dock","estimate":3600,"name":"w1_0","platform":"linux","report_deadline":8200,"resent":false,"version_num":102,"wu_name":"w1"},{"app_name":"dock","estimate":3600,"name":"w2_0","platform":"linux","report_deadline":8200,"resent":false,"version_num":102,"wu_name":"w2"}],"rpc_seqno":3,"user_name":"Cid","user_total_credit":0}
> 1970-01-01T00:16:40Z call k3 4 c3 ,"work_req_seconds":3600
< 200 {"end_word":"daily_quota","host_total_credit":0,"hostid":3,"request_delay":60,"result_abort":[],"result_ack":[],"results":[],"rpc_seqno":4,"user_name":"Cid","user_total_credit":0}
> 1970-01-01T00:35:00Z call k1 3 c1
< 200 {"end_word":"enough","host_total_credit":5000,"hostid":1,"request_delay":60,"result_abort":[],"result_ack":[],"results":[],"rpc_seqno":3,"user_name":"Ann","user_total_credit":5000}

= a user has the credit of all its hosts
> 1970-01-01T00:00:00Z units u3 w5,dock,1,2,3,5,4,7200,3600000,1000,1000,5000\nw6,dock,1,2,3,5,4,7200,3600000,1000,1000,5000
< 200 {"batch":"u3","kind":"workunits","rows":2}
> 1970-01-01T00:16:40Z call k1 1 c1 ,"work_req_seconds":3600
< 200 {"end_word":"enough","host_total_credit":0,"hostid":1,"request_delay":60,"result_abort":[],"result_ack":[],"results":[{"app_name":"dock","estimate":3600,"name":"w5_0","platform":"linux","report_deadline":8200,"resent":false,"version_num":102,"wu_name":"w5"}],"rpc_seqno":1,"user_name":"Ann","user_total_credit":0}
> 1970-01-01T00:16:40Z call k1 1 c9 ,"work_req_seconds":3600
< 200 {"end_word":"enough","host_total_credit":0,"hostid":2,"request_delay":60,"result_abort":[],"result_ack":[],"results":[{"app_name":"dock","estimate":3600,"name":"w6_0","platform":"linux","report_deadline":8200,"resent":false,"version_num":102,"wu_name":"w6"}],"rpc_seqno":1,"user_name":"Ann","user_total_credit":0}
> 1970-01-01T00:33:20Z call k1 2 c1 ,"results":[{"name":"w5_0","exit_status":0,"output":"x"}]
< 200 {"end_word":"enough","host_total_credit":5000,"hostid":1,"request_delay":60,"result_abort":[],"result_ack":["w5_0"],"results":[],"rpc_seqno":2,"user_name":"Ann","user_total_credit":5000}
> 1970-01-01T00:16:40Z call k1 2 c9
< 200 {"end_word":"enough","host_total_credit":0,"hostid":2,"request_delay":60,"result_abort":[],"result_ack":[],"results":[],"rpc_seqno":2,"user_name":"Ann","user_total_credit":5000}
> 1970-01-01T00:35:00Z call k1 3 c9 ,"results":[{"name":"w6_0","exit_status":0,"output":"y"}]
< 200 {"end_word":"enough","host_total_credit":5000,"hostid":2,"request_delay":60,"result_abort":[],"result_ack":["w6_0"],"results":[],"rpc_seqno":3,"user_name":"Ann","user_total_credit":10000}
> 1970-01-01T00:35:00Z call k1 3 c1
< 200 {"end_word":"enough","host_total_credit":5000,"hostid":1,"request_delay":60,"result_abort":[],"result_ack":[],"results":[],"rpc_seqno":3,"user_name":"Ann","user_total_credit":10000}
"#;
